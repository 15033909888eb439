// A checkpoint of a state in words: its pieces, and the state after its last store.
#![tactic(auto)]

ghost use Rattle.std.specs.Prelude.{◌≡◌, ◌+◌, ◌<◌, ◌≤◌, length, get_or};
ghost use Rattle.layout.specs.Layout.{Legal, record_word, image_length};
ghost use Rattle.replay.specs.Table.{no_position};
ghost use Rattle.state.specs.declared.Op.TheVariants.{Checkpoint};
ghost use Rattle.operations.specs.Operations.{recorded_slots};
ghost use Rattle.refinement.specs.Checkpoint.{without_lasts};
ghost use Rattle.refinement.specs.Stores.{store_at, store_value, completed};
ghost use Rattle.op_pieces.specs.Pieces.{Next};
ghost use Rattle.state_words.specs.Decoded.{decoded, places_of, with_table};

use layout::Sizes;
use op_pieces::Piece;
use state::Places;
use state_words::Words;

// The j-th slot that has a live record, rising, or S where there are fewer: so nobody has to count them.
fn recorded_slot(z: Sizes, words: &Words, j: usize) -> usize
    requires { Legal z }
    ensures { result ≡ get_or (recorded_slots z (decoded words.now).table.last) j z.slots }
{
    let mut left = j;
    for s in 0..z.slots {
        let q = state_words::last_at(words, s);
        if q != replay::NO_POSITION {
            if left == 0 {
                return s;
            }
            left -= 1;
        }
    }
    z.slots
}

// The first of the three slot words of the last live record of slot s.
fn last_words(z: Sizes, words: &Words, s: usize) -> usize
    requires { Legal z × (s < 16) }
    ensures { result ≡ record_word z (get_or (decoded words.now).table.last s no_position) + 1 }
{
    let _ = state_words::all_words(*words);
    layout::record_word(z, state_words::last_at(words, s)) + 1
}

// The piece of a checkpoint that store i lies in: a slot's three words, read from the image, or tail.
pub fn checkpoint_piece(image: &[u8], z: Sizes, at: Places, words: &Words, i: usize) -> Piece
    requires { (z ≡ (decoded words.now).sizes) × (at ≡ places_of (decoded words.now)) × Legal z × (image_length z ≤ length image.now) }
    ensures { Next (λ m. store_at (decoded words.now) Checkpoint) (λ m. store_value (decoded words.now) m Checkpoint)
        i (image_length z) image.now result }
{
    let s = recorded_slot(z, words, i / 3);
    if s < z.slots {
        let a = last_words(z, words, s);
        return op_pieces::of_slot(layout::slot_word(z, s), image, a, i % 3);
    }
    op_pieces::one(layout::TAIL_WORD, at.head as u64)
}

// No slot has a live record any more.
fn put_no_lasts(z: Sizes, words: &mut Words)
    requires { Legal z }
    ensures { decoded words.new ≡ with_table (decoded words.old) (without_lasts z (decoded words.old).table) }
{
    for s in 0..z.slots {
        state_words::put_last(words, s, replay::NO_POSITION);
    }
}

// What a checkpoint leaves when it is complete.
pub fn complete_checkpoint(z: Sizes, at: Places, words: &mut Words)
    requires { (z ≡ (decoded words.old).sizes) × (at ≡ places_of (decoded words.old)) × Legal z }
    ensures { decoded words.new ≡ completed (decoded words.old) Checkpoint }
{
    put_no_lasts(z, words);
    state_words::put_tail(words, at.head);
    state_words::put_nothing(words);
}
