// What a write finds before it is taken: the row that turns it back, or the frame of its line and whether the writer holds the line.
ghost use Rattle.std.specs.Prelude.{◌≡◌, true, false, ◌&&◌, ◌+◌, ◌<◌, ◌≤◌, ltb, length};
ghost use Rattle.layout.specs.Layout.{Legal, image_length};
ghost use Rattle.masks.specs.Lines.{in_mask};
ghost use Rattle.image.specs.Lines.{merged, merge_changes, line_words};
ghost use Rattle.state.specs.Held.{held_at};
ghost use Rattle.validity.specs.Validity.{state_ok};
ghost use Rattle.call_write.specs.Found.{WriteFound, SeenLow, found_line};
ghost use Rattle.state_words.specs.Decoded.{decoded, places_of};
ghost use Rattle.call_write.specs.Finding.{FramesIn, EntryIn};

use crate::Span;
use layout::Sizes;
use lines::Merged;
use rows::Refusal;
use state::Places;
use state_held::slots::slot_of;
use state_words::Words;

// Where no row turns the write back: the frame that the line is read from, whether the writer holds the line, and whether it is the wide one. That one
// holds a line as an entry: it is then `seen`.
#[derive(Clone, Copy)]
pub struct Found {
    pub seen: usize,
    pub held: bool,
    pub wide: bool,
}

// Whether the writer holds line l, s being its page's slot, S where it has none.
fn holds_line(z: Sizes, words: &Words, writer: usize, s: usize, l: usize) -> bool
    requires { Legal z × (writer < 4) × (l < 64) }
    ensures { result ≡ ltb s z.slots && in_mask (held_at (decoded words.now).writers.held writer s) l }
{
    if z.slots <= s {
        return false;
    }
    masks::has(state_words::held_at(words, writer, s), l)
}

// The rows from 11 on, of a page below P.
fn frames_found(
    z: Sizes,
    at: Places,
    words: &Words,
    writer: usize,
    a: Span,
) -> Result<Found, Refusal>
    requires { Legal z × (at.next < z.slots) × (a.page < z.pages) }
    ensures { FramesIn z at (decoded words.now) writer a result }
{
    let s = slot_of(z, words, a.page);
    op_rows::write_row(z, at, words, writer, a, s)?;
    let seen = state_lines::seen_frame(z, words, writer, a.page, s, a.line);
    let held = holds_line(z, words, writer, s, a.line);
    Ok(Found {
        seen,
        held,
        wide: false,
    })
}

// The same of a wide write.
fn entry_found(z: Sizes, at: Places, words: &Words, a: Span) -> Result<Found, Refusal>
    requires { Legal z × (at.count ≤ 64) × (a.page < z.pages) }
    ensures { EntryIn z at (decoded words.now) a result }
{
    op_rows::log_row(z, at, words, a)?;
    let e = state_held::held::find_entry(words, at.count, (64 * a.page + a.line) as u64);
    if e < at.count {
        return Ok(Found {
            seen: e,
            held: true,
            wide: true,
        });
    }
    let s = slot_of(z, words, a.page);
    let seen = state_lines::seen_frame(z, words, at.wide, a.page, s, a.line);
    Ok(Found {
        seen,
        held: false,
        wide: true,
    })
}

// All rows of a write on a state that row 8 accepts, and what it then finds.
pub fn write_found(
    image: &[u8],
    z: Sizes,
    at: Places,
    words: &Words,
    writer: usize,
    a: Span,
    data: &[u8],
) -> Result<Found, Refusal>
    requires { (z ≡ (decoded words.now).sizes) × (at ≡ places_of (decoded words.now)) × (state_ok (decoded words.now) ≡ true) }
    ensures { WriteFound (decoded words.now) image.now writer a.page a.line a.offset
        a.length «data».now result }
{
    call_rows::valid_row(z, words, image.len())?;
    if (data.len() < a.length) | (a.page >= z.pages) {
        return Err(Refusal::BadArgument);
    }
    if at.wide == writer {
        return entry_found(z, at, words, a);
    }
    frames_found(z, at, words, writer, a)
}

// The line that was found, with the first n bytes of data laid over it from offset on.
pub fn merged(
    image: &[u8],
    z: Sizes,
    found: Found,
    line: usize,
    offset: usize,
    data: &[u8],
    n: usize,
) -> Merged
    requires { Legal z × SeenLow z found × (line < 64) × (image_length z ≤ length image.now) × (offset + n ≤ 64) × (n ≤ length «data».now) }
    ensures words { result.words ≡ line_words (merged (found_line image.now z found line) offset n «data».now) }
    ensures changed { result.changed ≡ merge_changes (found_line image.now z found line) offset n «data».now }
{
    if found.wide & found.held {
        return entry_lines::merged_entry(image, z, found.seen, offset, data, n);
    }
    lines::merged_line(image, z, found.seen, line, offset, data, n)
}
