// Row 8 of a state in words: whether it keeps the rules. Nothing of it reads the image.
#![tactic(auto)]

mod fresh_state;
mod slots;

ghost use Rattle.std.specs.Prelude.{◌≡◌, ◌*◌, ◌<◌, ◌≤◌};
ghost use Rattle.layout.specs.Layout.{Legal};
ghost use Rattle.journal.specs.Records.{live_count};
ghost use Rattle.state.specs.State.{own_frame};
ghost use Rattle.validity.specs.Validity.{slots_ok, is_live_of, last_ok_of, lasts_ok, prepared_ok, is_fresh, op_fits, pending_ok, state_ok};
ghost use Rattle.state_words.specs.Decoded.{decoded, places_of};
ghost use Rattle.op_rows.specs.Seen.{Low, seen};
ghost use Rattle.state_rules.specs.Quiet.{quiet_in, op_ok};

use layout::Sizes;
use state::{Op, Places};
use state_held::held;
use state_words::parts::{idle_in, made_in, op_in};
use state_words::{Words, last_at};

// The rules of rows 3, 5 and 7 for the slots and the map.
#[tactic(auto, unfolding(validity::specs::Validity::slots_ok))]
fn slots_ok(z: Sizes, head: usize, tail: usize, words: &Words) -> bool
    ensures { result ≡ slots_ok z head tail (decoded words.now).table (own_frame (decoded words.now)) }
{
    if !layout::sizes_ok(z) {
        return false;
    }
    journal::records::positions_ok(z, head, tail) && slots::slots_fine(z, words)
}

// Whether q is a live position, of which there are so many.
fn is_live(z: Sizes, tail: usize, live: usize, q: usize) -> bool
    requires { Legal z × (tail < 2 * z.places) }
    ensures { result ≡ is_live_of z tail live q }
{
    q < 2 * z.places && journal::records::live_count(z, q, tail) < live
}

// Whether the last position of slot s, where it has one, is live and that of no slot below it.
fn last_ok(z: Sizes, tail: usize, live: usize, words: &Words, s: usize) -> bool
    requires { Legal z × (tail < 2 * z.places) × (s < 16) }
    ensures { result ≡ last_ok_of z tail live (decoded words.now).table.last s }
{
    let q = last_at(words, s);
    q == replay::NO_POSITION
        || (is_live(z, tail, live, q) && (0..s).all(|k| q != last_at(words, k)))
}

// The same of each slot.
fn lasts_ok(z: Sizes, head: usize, tail: usize, words: &Words) -> bool
    requires { Legal z × (head < 2 * z.places) × (tail < 2 * z.places) }
    ensures { result ≡ lasts_ok z head tail (decoded words.now).table.last }
{
    let live = journal::records::live_count(z, head, tail);
    (0..z.slots).all(|s| last_ok(z, tail, live, words, s))
}

// Whether a prepared writer is open and its records fit.
#[tactic(auto, unfolding(validity::specs::Validity::prepared_ok))]
fn prepared_ok(z: Sizes, at: Places, words: &Words) -> bool
    requires { Legal z × (at.head < 2 * z.places) × (at.tail < 2 * z.places) × (live_count z at.head at.tail ≤ z.places) }
    ensures { result ≡ prepared_ok z at.head at.tail (decoded words.now).writers.opened
        (decoded words.now).writers.held at.prepared }
{
    at.prepared >= 4
        || (state_words::open_at(words, at.prepared)
            && journal::records::live_count(z, at.head, at.tail)
                + held::held_count(z, words, at.prepared)
                <= z.places)
}

// Whether the state keeps every rule of row 8 that says nothing of what is pending.
#[tactic(auto, unfolding(validity::specs::Validity::quiet_ok))]
fn quiet_ok(z: Sizes, at: Places, words: &Words) -> bool
    ensures { result ≡ quiet_in z at (decoded words.now) }
{
    if !slots_ok(z, at.head, at.tail, words) {
        return false;
    }
    held::held_ok(z, words)
        && at.next < z.slots
        && lasts_ok(z, at.head, at.tail, words)
        && prepared_ok(z, at, words)
        && held::wide_ok(z, at, words)
}

// Whether a write or a commit that is pending is not one by the wide writer, whose are `Log` and `Copy`, and a format is beside the fresh state.
fn op_fits(z: Sizes, at: Places, words: &Words, op: Op) -> bool
    requires { Legal z }
    ensures { result ≡ op_fits at.wide (is_fresh (seen z at (decoded words.now))) op }
{
    match op {
        Op::Write { writer, .. } | Op::Commit { writer } => at.wide != writer,
        Op::Format => fresh_state::is_fresh(z, at, words),
        Op::Idle
        | Op::Consolidate { .. }
        | Op::Checkpoint
        | Op::Event { .. }
        | Op::Prepare { .. }
        | Op::Confirm { .. }
        | Op::Log { .. }
        | Op::Copy => true,
    }
}

// Whether an operation with so many stores made has stores left, and no row from 11 on turns it back.
fn op_ok(z: Sizes, at: Places, words: &Words, op: Op, made: usize) -> bool
    requires { Low z at × (at.count ≤ 64) }
    ensures { result ≡ op_ok (seen z at (decoded words.now)) op made }
{
    op_fits(z, at, words, op)
        && op_rows::op_row(z, at, words, op).is_ok()
        && made < op_rows::op_needs(z, at, words, op)
}

// The same of the operation that is pending, where one is.
#[tactic(auto, unfolding(validity::specs::Validity::pending_ok))]
fn pending_ok(z: Sizes, at: Places, words: &Words) -> bool
    requires { Low z at × (at.count ≤ 64) }
    ensures { result ≡ pending_ok (seen z at (decoded words.now)) }
{
    idle_in(words) || op_ok(z, at, words, op_in(words), made_in(words))
}

// Whether the state keeps every rule of row 8. z and at are its sizes and places.
pub fn state_ok(z: Sizes, at: Places, words: &Words) -> bool
    requires { (z ≡ (decoded words.now).sizes) × (at ≡ places_of (decoded words.now)) }
    ensures { result ≡ state_ok (decoded words.now) }
{
    quiet_ok(z, at, words) && pending_ok(z, at, words)
}
