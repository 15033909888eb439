// Write, on a state in words.
#![tactic(auto)]

pub mod found;

ghost use Rattle.std.specs.Prelude.{true, ◌≡◌, replicate, Ok};
ghost use Rattle.state.specs.declared.Op.TheVariants.{Write, Log};
ghost use Rattle.operations.specs.Operations.{needs};
ghost use Rattle.validity.specs.Validity.{state_ok};
ghost use Rattle.refinement.specs.Stores.{stores_made, state_after};
ghost use Rattle.refinement.specs.Calls.{write_of};
ghost use Rattle.answers.specs.Answers.{number_of};
ghost use Rattle.state_words.specs.Decoded.{decoded, places_of};
ghost use Rattle.state_pending.specs.Put.{with_pending};
ghost use Rattle.op_stores.specs.Asks.{Asks};
ghost use Rattle.op_stores.specs.Started.{budget, Started};

use answers::Answer;
use layout::Sizes;
pub use op_rows::Span;
use op_stores::Until;
use rows::Refusal;
use state::{Op, Pending, Places};
use state_words::Words;

// A write with its finished line, none of its stores made: a narrow writer's, and the wide one's.
fn pending(op: Op, line: [u64; 8]) -> Pending
    ensures { result ≡ record { op = op; made = 0; line = line; second = replicate 8 0 } }
{
    let second = [0u64; 8];
    Pending {
        op,
        made: 0,
        line,
        second,
    }
}

fn narrow(writer: usize, a: Span) -> Op
    ensures { result ≡ Write writer a.page a.line a.offset a.length }
{
    Op::Write {
        writer,
        page: a.page,
        line: a.line,
        offset: a.offset,
        length: a.length,
    }
}

fn wide(a: Span) -> Op
    ensures { result ≡ Log a.page a.line a.offset a.length }
{
    Op::Log {
        page: a.page,
        line: a.line,
        offset: a.offset,
        length: a.length,
    }
}

// Starts a narrow writer's write. Its eight stores are one piece, so it needs no loop, and no store of it decides.
fn put_line(
    image: &mut [u8],
    z: Sizes,
    at: Places,
    words: &mut Words,
    writer: usize,
    a: Span,
    p: Pending,
    until: Until,
) -> Answer
    requires { Asks z at (decoded words.old) image.old p × (p.op ≡ Write writer a.page a.line a.offset a.length) }
    ensures answer { result ≡ Ok (needs (decoded words.old) p.op) }
    ensures image { image.new ≡ stores_made (with_pending (decoded words.old) p)
        (budget until (with_pending (decoded words.old) p)) image.old }
    ensures words { decoded words.new ≡ state_after (with_pending (decoded words.old) p)
        (budget until (with_pending (decoded words.old) p)) }
{
    let op = p.op;
    let line = p.line;
    state_pending::put_pending(words, p);
    if op_stores::budget(until, op, 0, 8) == 0 {
        return Ok(8);
    }
    let piece = op_write::line_piece(z, at.next, words, line, a.page, a.line, 0);
    op_writer::put_piece(image, words, piece, 8);
    op_write::complete_write(z, words, writer, a.page, a.line);
    Ok(8)
}

// Write on a state that row 8 accepts.
pub fn write_valid(
    image: &mut [u8],
    z: Sizes,
    at: Places,
    words: &mut Words,
    writer: usize,
    span: Span,
    data: &[u8],
    until: Until,
) -> Answer
    requires { (z ≡ (decoded words.old).sizes) × (at ≡ places_of (decoded words.old)) × (state_ok (decoded words.old) ≡ true) }
    ensures started { Started result (decoded words.new) image.new
        (write_of (decoded words.old) image.old writer span.page span.line span.offset
        span.length «data».now) image.old until }
    ensures words { (number_of result ≡ 0 → ⊥) → words.new ≡ words.old }
{
    let found = found::write_found(image, z, at, words, writer, span, data)?;
    let merged = found::merged(image, z, found, span.line, span.offset, data, span.length);
    if found.held & !merged.changed {
        return Ok(0);
    }
    let line = merged.words;
    if found.wide {
        let p = pending(wide(span), line);
        return op_stores::start(image, z, at, words, p, until);
    }
    let p = pending(narrow(writer, span), line);
    put_line(image, z, at, words, writer, span, p, until)
}

// Writes the data's first bytes, and goes on with the write as far as is said. It makes no stores if the writer holds the line and no byte of it changes. A
// call that is turned back changes no word.
pub fn write(
    image: &mut [u8],
    words: &mut Words,
    writer: usize,
    span: Span,
    data: &[u8],
    until: Until,
) -> Answer
    ensures started { Started result (decoded words.new) image.new
        (write_of (decoded words.old) image.old writer span.page span.line span.offset
        span.length «data».now) image.old until }
    ensures words { (number_of result ≡ 0 → ⊥) → words.new ≡ words.old }
{
    let z = state_words::sizes_in(words);
    let at = state_words::places_in(words);
    if !state_rules::state_ok(z, at, words) {
        return Err(Refusal::BadState);
    }
    write_valid(image, z, at, words, writer, span, data, until)
}
