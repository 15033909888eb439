// What an event finds before it is taken: the row that turns it back, or the frames of page 0 and of its lines, and the stored number of its first meter.
ghost use Rattle.std.specs.Prelude.{◌≡◌, true, ℕ, ◌<◌, ◌≤◌, length};
ghost use Rattle.bounded.specs.Rows.{refusal};
ghost use Rattle.rows.specs.Numbers.{row_of};
ghost use Rattle.layout.specs.Layout.{Legal, frames as frames_of, image_length};
ghost use Rattle.meters.specs.Meters.{event_known};
ghost use Rattle.call_event.specs.Found.{start_rows, EventFound};
ghost use Rattle.state_words.specs.Decoded.{decoded, places_of};
ghost use Rattle.call_event.specs.Seen.{line_from, lines_seen};

use layout::Sizes;
use rows::Refusal;
use state::Places;
use state_words::Words;

// Where no row turns the event back: the frames that its lines are read from, and the stored number of the meter whose line goes first.
#[derive(Clone, Copy)]
pub struct Found {
    pub first: usize,
    pub own: usize,
    pub stored: u64,
}

// Rows 8, 4, 9, 29, 20 and 26 of an event, the image being of the length n.
fn start_row(
    z: Sizes,
    at: Places,
    words: &Words,
    n: usize,
    kind: usize,
    meter: usize,
    moduli: &[u64],
) -> Result<(), Refusal>
    requires { (z ≡ (decoded words.now).sizes) × (at ≡ places_of (decoded words.now)) }
    ensures { row_of result ≡ refusal (start_rows (decoded words.now) n moduli.now kind meter) }
{
    call_rows::quiet_row(z, at, words, n)?;
    if at.wide < 4 {
        return Err(Refusal::OtherOpen);
    }
    if !meters::is_known(kind, meter) {
        return Err(Refusal::UnknownEvent);
    }
    if !meters::moduli_ok(moduli) {
        return Err(Refusal::ModulusOutOfRange);
    }
    Ok(())
}

// The lines of a known event as writer 1 sees them, s being the slot of page 0, S where it has none.
fn lines_seen(image: &[u8], z: Sizes, words: &Words, kind: usize, meter: usize, s: usize) -> Found
    requires { Legal z × (event_known kind meter ≡ true) × ((l : ℕ) → line_from z (decoded words.now) s l < frames_of z)
        × (image_length z ≤ length image.now) }
    ensures { result ≡ lines_seen z (decoded words.now) image.now s kind meter }
{
    let l = meters::first_meter(kind, meter);
    let o = meters::own_meter(kind, meter);
    let first = state_lines::seen_frame(z, words, 1, 0, s, l);
    let own = state_lines::seen_frame(z, words, 1, 0, s, o);
    let stored = image::read_line_word(image, z, first, l, 0);
    Found { first, own, stored }
}

// All rows of an event, and what it then finds.
pub fn event_found(
    image: &[u8],
    z: Sizes,
    at: Places,
    words: &Words,
    kind: usize,
    meter: usize,
    amount: u64,
    moduli: &[u64],
) -> Result<Found, Refusal>
    requires { (z ≡ (decoded words.now).sizes) × (at ≡ places_of (decoded words.now)) }
    ensures { EventFound (decoded words.now) image.now moduli.now kind meter amount result }
{
    start_row(z, at, words, image.len(), kind, meter, moduli)?;
    let s = state_held::slots::slot_of(z, words, 0);
    op_rows::event_next_row(z, at, words, kind, meter, s)?;
    let found = lines_seen(image, z, words, kind, meter, s);
    if meters::amount_bad(moduli, kind, meter, found.stored, amount) {
        return Err(Refusal::AmountOutOfRange);
    }
    if op_rows::no_room(z, at.head, at.tail) {
        return Err(Refusal::JournalFull);
    }
    Ok(found)
}
