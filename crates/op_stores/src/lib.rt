// What is pending in a state in words taken further, and an operation started.
#![tactic(auto)]

mod calling;
mod ending;
mod making;
mod telling;

ghost use Rattle.std.specs.Prelude.{◌≡◌, ◌<◌, ◌≤◌, length, Ok};
ghost use Rattle.layout.specs.Layout.{image_length};
ghost use Rattle.operations.specs.Operations.{needs};
ghost use Rattle.refinement.specs.Stores.{stores_made, state_after, left};
ghost use Rattle.state_words.specs.Decoded.{decoded};
ghost use Rattle.state_pending.specs.Put.{with_pending};
ghost use Rattle.op_writer.specs.Served.{Served};
ghost use Rattle.op_stores.specs.Started.{fence_in, budget_in, budget};
ghost use Rattle.op_stores.specs.Asks.{Asks};

use answers::Answer;
pub use calling::ask;
use layout::Sizes;
use state::{Op, Pending, Places};
use state_words::Words;
pub use telling::{Ahead, left_in, look_ahead};

// How far a call goes with the operation that it asks for: not at all, to before the first store that decides, or to its end.
#[derive(Clone, Copy, Debug, PartialEq, Eq)]
pub enum Until {
    Asked,
    Fence,
    End,
}

// Makes the next n stores of what is pending, and leaves what they leave where they are the last.
pub fn go(image: &mut [u8], z: Sizes, at: Places, words: &mut Words, n: usize)
    requires { Served z at (decoded words.old) × (n ≤ left (decoded words.old)) × (image_length z ≤ length image.old) }
    ensures image { image.new ≡ stores_made (decoded words.old) n image.old }
    ensures words { decoded words.new ≡ state_after (decoded words.old) n }
{
    let op = state_words::parts::op_in(words);
    let made = state_words::parts::made_in(words);
    let all = op_rows::op_needs(z, at, words, op);
    making::make_stores(image, z, at, words, op, made, n);
    if made + n == all {
        ending::complete(z, at, words, op);
        return;
    }
    state_words::parts::put_made(words, made + n);
}

// Of an operation with m stores made and n left, those before the next store that decides.
fn before_fence(op: Op, m: usize, n: usize) -> usize
    requires { 0 < n }
    ensures { result ≡ fence_in op m n }
{
    match op {
        Op::Idle | Op::Write { .. } | Op::Log { .. } | Op::Prepare { .. } => n,
        Op::Commit { .. }
        | Op::Confirm { .. }
        | Op::Consolidate { .. }
        | Op::Checkpoint
        | Op::Event { .. } => n - 1,
        Op::Copy | Op::Format => if m == 0 { 0 } else { n - 1 },
    }
}

// Those that a call makes.
pub fn budget(until: Until, op: Op, m: usize, n: usize) -> usize
    requires { 0 < n }
    ensures { result ≡ budget_in until op m n }
{
    match until {
        Until::Asked => 0,
        Until::Fence => before_fence(op, m, n),
        Until::End => n,
    }
}

// Starts an operation: puts it pending and goes on with it as far as is said. The answer is that of asking.
pub fn start(
    image: &mut [u8],
    z: Sizes,
    at: Places,
    words: &mut Words,
    p: Pending,
    until: Until,
) -> Answer
    requires { Asks z at (decoded words.old) image.old p }
    ensures answer { result ≡ Ok (needs (decoded words.old) p.op) }
    ensures image { image.new ≡ stores_made (with_pending (decoded words.old) p)
        (budget until (with_pending (decoded words.old) p)) image.old }
    ensures words { decoded words.new ≡ state_after (with_pending (decoded words.old) p)
        (budget until (with_pending (decoded words.old) p)) }
{
    let op = p.op;
    let n = op_rows::op_needs(z, at, words, op);
    state_pending::put_pending(words, p);
    let k = budget(until, op, 0, n);
    go(image, z, at, words, k);
    Ok(n)
}
