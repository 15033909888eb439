// A consolidation of a state in words: its pieces, and the state after its last store.
#![tactic(auto)]

ghost use Rattle.std.specs.Prelude.{◌≡◌, ◌*◌, ◌<◌, ◌≤◌, true, length, get_or};
ghost use Rattle.layout.specs.Layout.{Legal, frames, image_length};
ghost use Rattle.journal.specs.Slots.{free_slot};
ghost use Rattle.state.specs.declared.Op.TheVariants.{Consolidate};
ghost use Rattle.operations.specs.Operations.{Ranged, slotted};
ghost use Rattle.refinement.specs.Consolidate.{copy_to, copy_from, copy_lines, consolidation_at, consolidation_value, Consolidates};
ghost use Rattle.refinement.specs.Stores.{store_at, store_value, completed};
ghost use Rattle.op_pieces.specs.Pieces.{Fits, Next};
ghost use Rattle.state_words.specs.Decoded.{decoded, places_of};

use journal::{Record, Slot};
use layout::Sizes;
use op_pieces::Piece;
use state::Places;
use state_words::Words;

// The frame that lines go to: the original where at most 32 are in the spare, else the spare.
fn copy_to(t: Slot) -> usize
    ensures { result ≡ copy_to t }
{
    if masks::count(t.bitmap) <= 32 {
        return t.original;
    }
    t.spare
}

// The frame that lines come from.
fn copy_from(t: Slot) -> usize
    ensures { result ≡ copy_from t }
{
    if masks::count(t.bitmap) <= 32 {
        return t.spare;
    }
    t.original
}

// The j-th line that is copied.
fn copied_line(t: Slot, j: usize) -> usize
    ensures { result ≡ get_or (copy_lines t) j 64 }
{
    if masks::count(t.bitmap) <= 32 {
        return masks::nth_in(t.bitmap, j);
    }
    masks::nth_not_in(t.bitmap, j)
}

// The record that frees slot s, of words t.
fn freeing_record(head: usize, s: usize, t: Slot) -> Record
    ensures { result ≡ record { first = head; slot = s; now = free_slot (copy_from t) } }
{
    let now = journal::slots::free_slot(copy_from(t));
    Record {
        first: head,
        slot: s,
        now,
    }
}

// The piece that store i lies in, of a slot t that record e frees: a line, read from its frame; the page-table word; the record; head.
fn slot_piece(image: &[u8], z: Sizes, head: usize, t: Slot, e: Record, p: usize, i: usize) -> Piece
    requires { Legal z × (head < 2 * z.places) × (copy_from t < frames z) × (copy_to t < frames z) × (copy_to t ≡ copy_from t → ⊥)
        × Fits e × (p < z.pages) × (image_length z ≤ length image.now) }
    ensures { Next (λ m. consolidation_at z head t p) (λ m. consolidation_value z head t e m) i (image_length z) image.now result }
{
    let c = 8 * needs::copy_count(t.bitmap);
    if i < c {
        let l = copied_line(t, i / 8);
        let to = layout::line_word(z, copy_to(t), l);
        return op_pieces::of_copy(to, image::frame(image, z, copy_from(t)), 64 * l, i % 8);
    }
    if i == c {
        return op_pieces::one(layout::page_word(p), copy_to(t) as u64);
    }
    if i < c + 5 {
        return op_pieces::of_record(layout::record_word(z, head), e, i - (c + 1));
    }
    let h = journal::records::position(z, head, 1);
    op_pieces::one(layout::HEAD_WORD, h as u64)
}

// The piece of the consolidation of page p that store i lies in.
pub fn consolidate_piece(
    image: &[u8],
    z: Sizes,
    at: Places,
    words: &Words,
    p: usize,
    i: usize,
) -> Piece
    requires { (z ≡ (decoded words.now).sizes) × (at ≡ places_of (decoded words.now)) × Consolidates z at.head (decoded words.now).table p
        × (image_length z ≤ length image.now) }
    ensures { Next (λ m. store_at (decoded words.now) (Consolidate p))
        (λ m. store_value (decoded words.now) m (Consolidate p)) i (image_length z) image.now result }
{
    let s = state_held::slots::slot_of(z, words, p);
    let t = state_words::slot_at(words, s);
    let e = freeing_record(at.head, s, t);
    slot_piece(image, z, at.head, t, e, p, i)
}

// What the consolidation of page p leaves when it is complete: the page's slot is free, and its frame is the one that the lines went to.
pub fn complete_consolidate(z: Sizes, at: Places, words: &mut Words, p: usize)
    requires { (z ≡ (decoded words.old).sizes) × (at ≡ places_of (decoded words.old)) × Ranged (decoded words.old)
        × (slotted (decoded words.old) p ≡ true) × (p < 1024) }
    ensures { decoded words.new ≡ completed (decoded words.old) (Consolidate p) }
{
    let s = state_held::slots::slot_of(z, words, p);
    let t = state_words::slot_at(words, s);
    state_words::put_entry(words, p, copy_to(t));
    state_words::put_slot(words, s, journal::slots::free_slot(copy_from(t)));
    state_words::put_last(words, s, at.head);
    state_words::put_head(words, journal::records::position(z, at.head, 1));
    state_words::put_nothing(words);
}
