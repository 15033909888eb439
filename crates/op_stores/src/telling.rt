// What is left of the pending operation, and what comes next.
ghost use Rattle.std.specs.Prelude.{◌≡◌, ◌≤◌, length};
ghost use Rattle.layout.specs.Layout.{image_length};
ghost use Rattle.refinement.specs.Stores.{store_at, left};
ghost use Rattle.state_words.specs.Decoded.{decoded};
ghost use Rattle.op_writer.specs.Served.{Served};
ghost use Rattle.op_stores.specs.Beside.{Beside};
ghost use Rattle.op_stores.specs.Started.{before_fence};

use crate::making;
use layout::Sizes;
use state::Places;
use state_words::Words;
use state_words::parts::{made_in, op_in};

// How many of its stores are left.
pub fn left_in(z: Sizes, at: Places, words: &Words) -> usize
    requires { Served z at (decoded words.now) }
    ensures { result ≡ left (decoded words.now) }
{
    let op = op_in(words);
    let all = op_rows::op_needs(z, at, words, op);
    all - made_in(words)
}

// What comes next: the word that its next store goes to, how many stores from that one on go to words side by side (there may be more of them), how many
// come before the next one that decides, and how many are left.
#[derive(Clone, Copy)]
pub struct Ahead {
    pub at: usize,
    pub beside: usize,
    pub before: usize,
    pub left: usize,
}

// Returns what comes next.
pub fn look_ahead(image: &[u8], z: Sizes, at: Places, words: &Words) -> Ahead
    requires { Served z at (decoded words.now) × (image_length z ≤ length image.now) }
    ensures at { result.at ≡ store_at (decoded words.now) (decoded words.now).pending.op
        (decoded words.now).pending.made }
    ensures beside { Beside (decoded words.now) result.beside }
    ensures before { result.before ≡ before_fence (decoded words.now) }
    ensures left { result.left ≡ left (decoded words.now) }
{
    let op = op_in(words);
    let made = made_in(words);
    let p = making::next_piece(image, z, at, words, op, made);
    let left = left_in(z, at, words);
    let before = crate::before_fence(op, made, left);
    let beside = bounded::smaller(p.count - p.from, left);
    Ahead {
        at: p.at + p.from,
        beside,
        before,
        left,
    }
}
