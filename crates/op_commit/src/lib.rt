// The state after the last store of a commit, and of a prepare, in words.
#![tactic(auto)]

pub mod piece;

ghost use Rattle.std.specs.Prelude.{◌≡◌, false, ◌+◌, ◌*◌, ◌<◌, ◌≤◌, length, get_or, set};
ghost use Rattle.layout.specs.Layout.{Legal};
ghost use Rattle.state.specs.Held.{held_slots, let_go};
ghost use Rattle.refinement.specs.Commit.{bitmaps_after, lasts_after, commit_done, prepare_done};
ghost use Rattle.state_words.specs.Decoded.{decoded, with_table, with_writers, with_held};
ghost use Rattle.op_commit.specs.After.{with_bitmaps, with_lasts};

use layout::Sizes;
use state_words::{Words, held_at};

// The j-th slot that writer w holds lines of, rising, or 0 where there is none.
fn held_slot(z: Sizes, words: &Words, w: usize, j: usize) -> usize
    requires { Legal z × (w < 4) }
    ensures { result ≡ get_or (held_slots z (decoded words.now).writers.held w) j 0 }
{
    let mut left = j;
    for s in 0..z.slots {
        let m = held_at(words, w, s);
        if m != 0 {
            if left == 0 {
                return s;
            }
            left -= 1;
        }
    }
    0
}

// Puts the bitmaps of a commit of n slots.
fn put_bitmaps(z: Sizes, words: &mut Words, w: usize, n: usize)
    requires { Legal z × (w < 4) }
    ensures { decoded words.new ≡ with_bitmaps (decoded words.old)
        (bitmaps_after z (decoded words.old).table.bitmap (decoded words.old).writers.held w n) }
{
    let before = state_words::parts::bitmaps_in(words);
    for j in 0..n {
        let s = held_slot(z, words, w, j);
        let m = held_at(words, w, s);
        state_words::put_bitmap(words, s, masks::exclusive_or(before[s], m));
    }
}

// The same of the positions of last records.
fn put_lasts(z: Sizes, head: usize, words: &mut Words, w: usize, n: usize)
    requires { Legal z × (head < 2 * z.places) × (w < 4) × (n ≤ z.places) }
    ensures { decoded words.new ≡ with_lasts (decoded words.old)
        (lasts_after z head (decoded words.old).table.last (decoded words.old).writers.held w n) }
{
    for j in 0..n {
        let s = held_slot(z, words, w, j);
        state_words::put_last(words, s, journal::records::position(z, head, j));
    }
}

// Empties the held lines of writer w.
pub fn let_go(z: Sizes, words: &mut Words, w: usize)
    requires { Legal z × (w < 4) }
    ensures { decoded words.new ≡ with_writers (decoded words.old)
        (with_held (decoded words.old).writers (let_go z (decoded words.old).writers.held w)) }
{
    for s in 0..z.slots {
        state_words::put_held(words, w, s, 0);
    }
}

// What a commit leaves when it is complete.
pub fn complete_commit(z: Sizes, words: &mut Words, w: usize)
    requires { (z ≡ (decoded words.old).sizes) × Legal z × ((decoded words.old).head < 2 * z.places) × (w < 4) }
    ensures { decoded words.new ≡ commit_done (decoded words.old) w }
{
    let head = state_words::places_in(words).head;
    let n = state_held::held::held_count(z, words, w);
    put_bitmaps(z, words, w, n);
    put_lasts(z, head, words, w, n);
    let_go(z, words, w);
    state_words::put_open(words, w, false);
    state_words::put_prepared(words, state::NO_WRITER);
    state_words::put_head(words, journal::records::position(z, head, n));
    state_words::put_nothing(words);
}

// What a prepare leaves when its records are stored: the writer is prepared.
pub fn complete_prepare(words: &mut Words, w: usize)
    ensures { decoded words.new ≡ prepare_done (decoded words.old) w }
{
    state_words::put_prepared(words, w);
    state_words::put_nothing(words);
}
