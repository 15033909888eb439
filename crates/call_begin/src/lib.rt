// Begin, of a wide transaction too, and abort, on a state in words, lent whole. A call that is turned back changes no word.
#![tactic(auto)]

ghost use Rattle.std.specs.Prelude.{cond, true, ◌≡◌, ◌+◌, eqb, set};
ghost use Rattle.bounded.specs.Rows.{refusal};
ghost use Rattle.validity.specs.Validity.{state_ok};
ghost use Rattle.refinement.specs.Calls.{begin_rows, begin_of, begin_wide_rows, begin_wide_of, abort_rows, abort_of};
ghost use Rattle.rows.specs.Numbers.{row_of};
ghost use Rattle.answers.specs.Answers.{number_of, answered_at};
ghost use Rattle.state_words.specs.Decoded.{decoded, places_of};
ghost use Rattle.call_begin.specs.First.{first_rows};

use answers::Answer;
use layout::Sizes;
use rows::Refusal;
use state::Places;
use state_words::Words;

// The first of rows 8, 9 and 11, of a state that row 8 accepts.
fn valid_row(words: &Words, writer: usize) -> Result<(), Refusal>
    requires { state_ok (decoded words.now) ≡ true }
    ensures { row_of result ≡ refusal (first_rows (decoded words.now) writer) }
{
    if !state_words::parts::idle_in(words) {
        return Err(Refusal::OperationPending);
    }
    if writer > 3 {
        return Err(Refusal::BadArgument);
    }
    Ok(())
}

// The first row that turns back begin, of a state that row 8 accepts. It wants the writer closed and no wide one.
fn begin_row(at: Places, words: &Words, writer: usize) -> Result<(), Refusal>
    requires { (at ≡ places_of (decoded words.now)) × (state_ok (decoded words.now) ≡ true) }
    ensures { row_of result ≡ refusal (begin_rows (decoded words.now) writer) }
{
    valid_row(words, writer)?;
    if at.wide < 4 {
        return Err(Refusal::OtherOpen);
    }
    if state_words::open_at(words, writer) {
        return Err(Refusal::WriterOpen);
    }
    Ok(())
}

// Begin on a state that row 8 accepts.
pub fn begin_valid(at: Places, words: &mut Words, writer: usize) -> Answer
    requires { (at ≡ places_of (decoded words.old)) × (state_ok (decoded words.old) ≡ true) }
    ensures state { answered_at result (decoded words.new) ≡ begin_of (decoded words.old) writer }
    ensures words { words.new ≡ cond (eqb (number_of result) 0) (set words.old (10 + writer) 1) words.old }
{
    begin_row(at, words, writer)?;
    state_words::put_open(words, writer, true);
    Ok(0)
}

// Opens a writer. A call that is taken changes one word.
pub fn begin(words: &mut Words, writer: usize) -> Answer
    ensures state { answered_at result (decoded words.new) ≡ begin_of (decoded words.old) writer }
    ensures words { words.new ≡ cond (eqb (number_of result) 0) (set words.old (10 + writer) 1) words.old }
{
    let z = state_words::sizes_in(words);
    let at = state_words::places_in(words);
    if !state_rules::state_ok(z, at, words) {
        return Err(Refusal::BadState);
    }
    begin_valid(at, words, writer)
}

// The first of rows 8, 9 and 11.
fn first_row(z: Sizes, at: Places, words: &Words, writer: usize) -> Result<(), Refusal>
    requires { (z ≡ (decoded words.now).sizes) × (at ≡ places_of (decoded words.now)) }
    ensures { row_of result ≡ refusal (first_rows (decoded words.now) writer) }
{
    if !state_rules::state_ok(z, at, words) {
        return Err(Refusal::BadState);
    }
    valid_row(words, writer)
}

// The first row that turns back a wide begin, which wants entries and every writer closed.
fn wide_row(words: &Words, writer: usize) -> Result<(), Refusal>
    ensures { row_of result ≡ refusal (begin_wide_rows (decoded words.now) writer) }
{
    let z = state_words::sizes_in(words);
    let at = state_words::places_in(words);
    first_row(z, at, words, writer)?;
    if z.entries == 0 {
        return Err(Refusal::NoWideRounds);
    }
    if state_held::held::some_open(words) {
        return Err(Refusal::OtherOpen);
    }
    Ok(())
}

// Opens a writer for a wide transaction.
pub fn begin_wide(words: &mut Words, writer: usize) -> Answer
    ensures state { answered_at result (decoded words.new) ≡ begin_wide_of (decoded words.old) writer }
    ensures words { (number_of result ≡ 0 → ⊥) → words.new ≡ words.old }
{
    wide_row(words, writer)?;
    state_words::put_open(words, writer, true);
    op_copy::put_no_wide(words);
    state_words::put_wide(words, writer, 0);
    Ok(0)
}

// The first row that turns back abort, of a state that row 8 accepts. It wants the writer open and not prepared.
fn abort_row(at: Places, words: &Words, writer: usize) -> Result<(), Refusal>
    requires { (at ≡ places_of (decoded words.now)) × (state_ok (decoded words.now) ≡ true) }
    ensures { row_of result ≡ refusal (abort_rows (decoded words.now) writer) }
{
    valid_row(words, writer)?;
    if !state_words::open_at(words, writer) {
        return Err(Refusal::WriterNotOpen);
    }
    if at.prepared == writer {
        return Err(Refusal::TransactionPrepared);
    }
    Ok(())
}

// Abort on a state that row 8 accepts.
pub fn abort_valid(z: Sizes, at: Places, words: &mut Words, writer: usize) -> Answer
    requires { (z ≡ (decoded words.old).sizes) × (at ≡ places_of (decoded words.old)) × (state_ok (decoded words.old) ≡ true) }
    ensures state { answered_at result (decoded words.new) ≡ abort_of (decoded words.old) writer }
    ensures words { (number_of result ≡ 0 → ⊥) → words.new ≡ words.old }
{
    abort_row(at, words, writer)?;
    state_words::put_open(words, writer, false);
    op_commit::let_go(z, words, writer);
    if at.wide == writer {
        op_copy::put_no_wide(words);
    }
    Ok(0)
}

// Closes a writer and empties its held lines; of the wide one also its entries.
pub fn abort(words: &mut Words, writer: usize) -> Answer
    ensures state { answered_at result (decoded words.new) ≡ abort_of (decoded words.old) writer }
    ensures words { (number_of result ≡ 0 → ⊥) → words.new ≡ words.old }
{
    let z = state_words::sizes_in(words);
    let at = state_words::places_in(words);
    if !state_rules::state_ok(z, at, words) {
        return Err(Refusal::BadState);
    }
    abort_valid(z, at, words, writer)
}
