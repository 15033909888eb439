// A write on a state in words: its piece, and the state after its last store.
#![tactic(auto)]

ghost use Rattle.std.specs.Prelude.{◌≡◌, true, false, List, ℕ, ◌+◌, ◌*◌, ◌<◌, ◌≤◌};
ghost use Rattle.layout.specs.Layout.{Legal, line_word, image_length};
ghost use Rattle.replay.specs.Table.{slots_shaped};
ghost use Rattle.operations.specs.Operations.{is_idle};
ghost use Rattle.op_pieces.specs.Pieces.{Next, line_piece};
ghost use Rattle.refinement.specs.Write.{frame_to_write, write_at, write_value, write_done};
ghost use Rattle.state_words.specs.Decoded.{decoded};
ghost use Rattle.op_write.specs.LineHeld.{slot_from, line_held};

use journal::Slot;
use layout::Sizes;
use op_pieces::Piece;
use state_words::Words;

// The slot that page p is written by, own being the one that it has: that one, or else the first free one going round from the next slot to try.
fn write_slot(z: Sizes, next: usize, words: &Words, own: usize) -> usize
    requires { Legal z × (next < z.slots) }
    ensures { result ≡ slot_from z next (decoded words.now).table.page own }
{
    if own < z.slots {
        return own;
    }
    let k = state_held::slots::free_after(z, words, next);
    state::slots::round_slot(z, next, k)
}

// The piece of a finished line that goes to line l of page p, from word k on: it lies in the frame that is not the committed one.
pub fn line_piece(
    z: Sizes,
    next: usize,
    words: &Words,
    line: [u64; 8],
    p: usize,
    l: usize,
    k: usize,
) -> Piece
    requires { Legal z × (next < z.slots) × (slots_shaped z (decoded words.now).table ≡ true) × (l < 64) }
    ensures piece { result ≡ line_piece (line_word z (frame_to_write z (decoded words.now).table next p l) l) line k }
    ensures inside { 8 * (result.at + 8) ≤ image_length z }
{
    let own = state_held::slots::slot_of(z, words, p);
    let s = write_slot(z, next, words, own);
    let t = state_words::slot_at(words, s);
    let f = frames::other_frame(t, l);
    op_pieces::of_line(layout::line_word(z, f, l), &line, k)
}

// The piece of a write of line l of page p that store i lies in: its finished line.
pub fn write_piece(z: Sizes, next: usize, words: &Words, p: usize, l: usize, i: usize) -> Piece
    requires { (z ≡ (decoded words.now).sizes) × (next ≡ (decoded words.now).next) × Legal z × (next < z.slots)
        × (slots_shaped z (decoded words.now).table ≡ true) × (is_idle (decoded words.now).pending.op ≡ false) × (l < 64) × (i < 8) }
    ensures { (img : List ℕ) → Next (λ m. write_at (decoded words.now) p l) (λ m. write_value (decoded words.now))
        i (image_length z) img result }
{
    let line = state_words::parts::line_in(words);
    line_piece(z, next, words, line, p, l, i)
}

// Writer w holds line l of page p from now on. A page without a slot takes one, its frame being the original.
pub fn hold_line(z: Sizes, words: &mut Words, w: usize, p: usize, l: usize)
    requires { (z ≡ (decoded words.old).sizes) × Legal z × ((decoded words.old).next < z.slots) × (w < 4) × (p < 1024) × (l < 64) }
    ensures { decoded words.new ≡ line_held (decoded words.old) w p l }
{
    let next = state_words::places_in(words).next;
    let own = state_held::slots::slot_of(z, words, p);
    let s = write_slot(z, next, words, own);
    let m = state_words::held_at(words, w, s);
    state_words::put_held(words, w, s, masks::with(m, l));
    if own < z.slots {
        return;
    }
    let original = state_words::entry_at(words, p);
    let spare = state_words::slot_at(words, s).spare;
    let fresh = Slot {
        page: p,
        original,
        spare,
        bitmap: 0,
    };
    state_words::put_slot(words, s, fresh);
    state_words::put_next(words, (s + 1) % z.slots);
}

// What a write leaves when it is complete.
pub fn complete_write(z: Sizes, words: &mut Words, w: usize, p: usize, l: usize)
    requires { (z ≡ (decoded words.old).sizes) × Legal z × ((decoded words.old).next < z.slots)
        × (w < 4) × (p < 1024) × (l < 64) }
    ensures { decoded words.new ≡ write_done (decoded words.old) w p l }
{
    hold_line(z, words, w, p, l);
    state_words::put_nothing(words);
}
