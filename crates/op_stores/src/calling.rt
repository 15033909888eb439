// An operation that keeps no lines, asked for: complete at once where it needs no store, else started.
ghost use Rattle.std.specs.Prelude.{◌≡◌, ◌≤◌, length, replicate, Ok};
ghost use Rattle.layout.specs.Layout.{image_length};
ghost use Rattle.operations.specs.Operations.{needs};
ghost use Rattle.refinement.specs.Calls.{asked};
ghost use Rattle.refinement.specs.Stores.{completed};
ghost use Rattle.state_words.specs.Decoded.{decoded};
ghost use Rattle.op_stores.specs.Asks.{Allowed};
ghost use Rattle.op_stores.specs.Started.{Started};

use crate::Until;
use answers::Answer;
use layout::Sizes;
use op_commit::complete_commit;
use state::{Op, Pending, Places};
use state_words::Words;

// What an operation leaves that needs no store.
fn complete_now(z: Sizes, at: Places, words: &mut Words, op: Op)
    requires { Allowed z at (decoded words.old) op × (needs (decoded words.old) op ≡ 0) }
    ensures { decoded words.new ≡ completed (decoded words.old) op }
{
    match op {
        Op::Commit { writer } | Op::Confirm { writer } => complete_commit(z, words, writer),
        Op::Prepare { writer } => op_commit::complete_prepare(words, writer),
        Op::Checkpoint => op_checkpoint::complete_checkpoint(z, at, words),
        Op::Copy => op_copy::complete_copy(z, words, at.wide),
        Op::Idle
        | Op::Write { .. }
        | Op::Log { .. }
        | Op::Consolidate { .. }
        | Op::Event { .. }
        | Op::Format => {}
    }
}

// Asks for an operation that no row turns back, and goes on with it as far as is said.
pub fn ask(
    image: &mut [u8],
    z: Sizes,
    at: Places,
    words: &mut Words,
    op: Op,
    until: Until,
) -> Answer
    requires { Allowed z at (decoded words.old) op × (image_length z ≤ length image.old) }
    ensures answer { result ≡ Ok (needs (decoded words.old) op) }
    ensures started { Started result (decoded words.new) image.new
        (asked 0 (decoded words.old) op (replicate 8 0)) image.old until }
{
    if op_rows::op_needs(z, at, words, op) == 0 {
        complete_now(z, at, words, op);
        return Ok(0);
    }
    let none = [0u64; 8];
    let p = Pending {
        op,
        made: 0,
        line: none,
        second: none,
    };
    crate::start(image, z, at, words, p, until)
}
