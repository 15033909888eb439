// The rows of the calls that ask for an operation, of a state in words and an image of n bytes.
#![tactic(auto)]

pub mod asking;
mod freeing;

ghost use Rattle.std.specs.Prelude.{true, ◌≡◌, ◌++◌, ◌<◌};
ghost use Rattle.bounded.specs.Rows.{refusal};
ghost use Rattle.rows.specs.Numbers.{row_of};
ghost use Rattle.operations.specs.Operations.{commit_rows};
ghost use Rattle.validity.specs.Validity.{state_ok};
ghost use Rattle.refinement.specs.Calls.{quiet_rows, busy_rows};
ghost use Rattle.state_words.specs.Decoded.{decoded, places_of};

pub use freeing::free_row;
use layout::Sizes;
use rows::Refusal;
use state::Places;
use state_words::Words;

// The first of rows 8, 4 and 9, of a state that row 8 accepts.
pub fn valid_row(z: Sizes, words: &Words, n: usize) -> Result<(), Refusal>
    requires { (z ≡ (decoded words.now).sizes) × (state_ok (decoded words.now) ≡ true) }
    ensures { row_of result ≡ refusal (quiet_rows (decoded words.now) n) }
{
    if n < layout::image_length(z) {
        return Err(Refusal::BufferTooShort);
    }
    if !state_words::parts::idle_in(words) {
        return Err(Refusal::OperationPending);
    }
    Ok(())
}

// The first of rows 8, 4 and 9.
pub fn quiet_row(z: Sizes, at: Places, words: &Words, n: usize) -> Result<(), Refusal>
    requires { (z ≡ (decoded words.now).sizes) × (at ≡ places_of (decoded words.now)) }
    ensures { row_of result ≡ refusal (quiet_rows (decoded words.now) n) }
{
    if !state_rules::state_ok(z, at, words) {
        return Err(Refusal::BadState);
    }
    valid_row(z, words, n)
}

// The first of rows 8, 4 and 10: quiet_row's, which says by row 9 that something is pending.
pub fn busy_row(z: Sizes, at: Places, words: &Words, n: usize) -> Result<(), Refusal>
    requires { (z ≡ (decoded words.now).sizes) × (at ≡ places_of (decoded words.now)) }
    ensures { row_of result ≡ refusal (busy_rows (decoded words.now) n) }
{
    match quiet_row(z, at, words, n) {
        Err(Refusal::OperationPending) => Ok(()),
        Ok(()) => Err(Refusal::NothingPending),
        other => other,
    }
}

// The first row that turns a commit back, of a state that row 8 accepts: 4, 9, 11, 13, 23, 19.
pub fn commit_row(
    z: Sizes,
    at: Places,
    words: &Words,
    writer: usize,
    n: usize,
) -> Result<(), Refusal>
    requires { (z ≡ (decoded words.now).sizes) × (at ≡ places_of (decoded words.now)) × (state_ok (decoded words.now) ≡ true) }
    ensures { row_of result ≡ refusal (quiet_rows (decoded words.now) n ++ commit_rows (decoded words.now) writer) }
{
    valid_row(z, words, n)?;
    op_rows::commit_row(z, at, words, writer)
}
