// The rows from 11 on of a write, and of a wide write.
ghost use Rattle.std.specs.Prelude.{◌≡◌, ◌<◌, ◌≤◌};
ghost use Rattle.bounded.specs.Rows.{refusal};
ghost use Rattle.rows.specs.Numbers.{row_of};
ghost use Rattle.layout.specs.Layout.{Legal};
ghost use Rattle.state.specs.Wide.{wide_of, no_entry_left};
ghost use Rattle.operations.specs.Operations.{write_args_bad, line_taken, none_free};
ghost use Rattle.state_words.specs.Decoded.{decoded};
ghost use Rattle.op_rows.specs.Seen.{write_rows_in, log_rows_in};

use crate::Span;
use layout::Sizes;
use rows::Refusal;
use state::Places;
use state_words::Words;

// Row 11 of a write, without the data. No sum wraps.
fn write_args_bad(z: Sizes, writer: usize, span: Span) -> bool
    ensures { result ≡ write_args_bad z writer span.page span.line span.offset span.length }
{
    if span.offset > 64 {
        return true;
    }
    // No branch between the tests that are left.
    (writer > 3)
        | (span.page >= z.pages)
        | (span.line > 63)
        | (span.length == 0)
        | (span.length > 64 - span.offset)
}

// Row 14: the page has slot s, and a writer other than w holds line l.
pub(crate) fn line_taken(z: Sizes, words: &Words, w: usize, s: usize, l: usize) -> bool
    requires { Legal z × (l < 64) }
    ensures { result ≡ line_taken z (decoded words.now).writers.held w s l }
{
    s < z.slots && state_held::held::others_hold(words, w, s, l)
}

// Row 15: the page has no slot and none is free.
pub(crate) fn none_free(z: Sizes, next: usize, words: &Words, s: usize) -> bool
    requires { Legal z × (next < z.slots) }
    ensures { result ≡ none_free z (decoded words.now).table.page next s }
{
    s >= z.slots && state_held::slots::free_after(z, words, next) >= z.slots
}

// The first row from 11 on that turns a write back, with the page's slot s, S where it has none.
pub fn write_row(
    z: Sizes,
    at: Places,
    words: &Words,
    writer: usize,
    span: Span,
    s: usize,
) -> Result<(), Refusal>
    requires { Legal z × (at.next < z.slots) }
    ensures { row_of result ≡ refusal (write_rows_in z at (decoded words.now) writer span s) }
{
    if write_args_bad(z, writer, span) {
        return Err(Refusal::BadArgument);
    }
    if !state_words::open_at(words, writer) {
        return Err(Refusal::WriterNotOpen);
    }
    if at.prepared == writer {
        return Err(Refusal::TransactionPrepared);
    }
    if line_taken(z, words, writer, s, span.line) {
        return Err(Refusal::LineHeld);
    }
    if none_free(z, at.next, words, s) {
        return Err(Refusal::NoFreeSlot);
    }
    Ok(())
}

// Row 30: line l of page p has no entry, and all are used.
fn no_entry_left(z: Sizes, count: usize, words: &Words, p: usize, l: usize) -> bool
    requires { (count ≤ 64) × (p < 1024) × (l < 64) }
    ensures { result ≡ no_entry_left z (wide_of 0 count (decoded words.now).wide.keys) p l }
{
    let e = state_held::held::find_entry(words, count, (64 * p + l) as u64);
    e >= count && z.entries <= count
}

// The first row from 11 on that turns a wide write back.
pub fn log_row(z: Sizes, at: Places, words: &Words, span: Span) -> Result<(), Refusal>
    requires { Legal z × (at.count ≤ 64) }
    ensures { row_of result ≡ refusal (log_rows_in z at (decoded words.now) span) }
{
    if write_args_bad(z, at.wide, span) {
        return Err(Refusal::BadArgument);
    }
    if !state_words::open_at(words, at.wide) {
        return Err(Refusal::WriterNotOpen);
    }
    if no_entry_left(z, at.count, words, span.page, span.line) {
        return Err(Refusal::EntriesUsed);
    }
    Ok(())
}
