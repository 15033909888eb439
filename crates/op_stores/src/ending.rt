// What the pending operation leaves when its last store is made.
ghost use Rattle.std.specs.Prelude.{◌≡◌};
ghost use Rattle.refinement.specs.Stores.{completed};
ghost use Rattle.state_words.specs.Decoded.{decoded};
ghost use Rattle.op_writer.specs.Served.{Served};

use layout::Sizes;
use op_commit::complete_commit;
use state::{Op, Places};
use state_words::Words;

// Ends the pending operation.
pub(crate) fn complete(z: Sizes, at: Places, words: &mut Words, op: Op)
    requires { Served z at (decoded words.old) × (op ≡ (decoded words.old).pending.op) }
    ensures { decoded words.new ≡ completed (decoded words.old) op }
{
    match op {
        Op::Idle => {}
        Op::Write {
            writer,
            page,
            line,
            ..
        } => op_write::complete_write(z, words, writer, page, line),
        Op::Log { page, line, .. } => op_log::complete_log(words, at.wide, at.count, page, line),
        Op::Commit { writer } | Op::Confirm { writer } => complete_commit(z, words, writer),
        Op::Consolidate { page } => op_consolidate::complete_consolidate(z, at, words, page),
        Op::Checkpoint => op_checkpoint::complete_checkpoint(z, at, words),
        Op::Event { kind, meter, .. } => op_event::complete_event(z, words, kind, meter),
        Op::Prepare { writer } => op_commit::complete_prepare(words, writer),
        Op::Copy => op_copy::complete_copy(z, words, at.wide),
        Op::Format => op_format::complete_format(words),
    }
}
