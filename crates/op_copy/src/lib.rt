// A wide commit of a state in words: its pieces, and the state after its last store.
#![tactic(auto)]

ghost use Rattle.std.specs.Prelude.{◌≡◌, ℕ, ◌<◌, ◌≤◌, length, get_or};
ghost use Rattle.layout.specs.Layout.{Legal, frames as frames_of, image_length};
ghost use Rattle.entries.specs.Entries.{key_page};
ghost use Rattle.state.specs.State.{own_frame};
ghost use Rattle.state.specs.Wide.{no_wide};
ghost use Rattle.op_pieces.specs.Pieces.{Next};
ghost use Rattle.refinement.specs.Settled.{with_wide, with_writers};
ghost use Rattle.refinement.specs.Commit.{closed_writer};
ghost use Rattle.refinement.specs.Wide.{copied_frame, copy_at_of, copy_value_of, copy_done};
ghost use Rattle.state_words.specs.Decoded.{decoded};

use layout::Sizes;
use op_pieces::Piece;
use state_words::{COUNT, KEYS, NO_WRITER, WIDE, Words};

// There is no wide transaction, and no entry is used.
pub fn put_no_wide(words: &mut Words)
    ensures { decoded words.new ≡ with_wide (decoded words.old) no_wide }
{
    let _ = state_words::all_words(*words);
    for e in 0..64 {
        words[KEYS + e] = 0;
    }
    words[WIDE] = NO_WRITER;
    words[COUNT] = 0;
}

// Closes writer w, if there is such a one, and empties its held lines.
fn close(z: Sizes, words: &mut Words, w: usize)
    requires { Legal z }
    ensures { decoded words.new ≡ with_writers (decoded words.old) (closed_writer z (decoded words.old).writers w) }
{
    let _ = state_words::all_words(*words);
    if w > 3 {
        return;
    }
    op_commit::let_go(z, words, w);
    state_words::put_open(words, w, false);
}

// What a wide commit leaves: its writer w is closed, and no entry is used. A copying that a mount found has no writer.
pub fn complete_copy(z: Sizes, words: &mut Words, w: usize)
    requires { (z ≡ (decoded words.old).sizes) × Legal z × (w ≡ (decoded words.old).wide.writer) }
    ensures { decoded words.new ≡ copy_done (decoded words.old) }
{
    close(z, words, w);
    put_no_wide(words);
    state_words::put_nothing(words);
}

// The frame that the line with this key is copied to.
fn copied_frame(z: Sizes, words: &Words, key: u64) -> usize
    requires { Legal z × (key_page key < z.pages) }
    ensures { result ≡ copied_frame (own_frame (decoded words.now)) z (decoded words.now).table key }
{
    let p = (key / 64) as usize;
    let l = (key % 64) as usize;
    let s = state_held::slots::slot_of(z, words, p);
    if s < z.slots {
        let t = state_words::slot_at(words, s);
        return frames::committed_frame(t, l);
    }
    state_words::entry_at(words, p)
}

// The piece of a wide commit that store i lies in: the count of entries, a line, or 0 for the count.
pub fn copy_piece(image: &[u8], z: Sizes, words: &Words, count: usize, i: usize) -> Piece
    requires { Legal z × (count ≤ z.entries) × ((e : ℕ) → e < count → (key_page (get_or (decoded words.now).wide.keys e 0) < z.pages)
        × (copied_frame (own_frame (decoded words.now)) z (decoded words.now).table (get_or (decoded words.now).wide.keys e 0) < frames_of z))
        × (image_length z ≤ length image.now) }
    ensures { Next (λ m. copy_at_of (own_frame (decoded words.now)) z (decoded words.now).table count
        (decoded words.now).wide.keys) (copy_value_of z count) i (image_length z) image.now result }
{
    if i == 0 {
        return op_pieces::one(layout::COUNT_WORD, count as u64);
    }
    if 8 * count < i {
        return op_pieces::one(layout::COUNT_WORD, 0);
    }
    let e = (i - 1) / 8;
    let key = state_words::key_at(words, e);
    let f = copied_frame(z, words, key);
    let l = (key % 64) as usize;
    let to = layout::line_word(z, f, l);
    let from = layout::entry_word(z, e) + 1;
    op_pieces::of_copy(to, image, 8 * from, (i - 1) % 8)
}
