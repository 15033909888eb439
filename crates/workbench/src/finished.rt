// How many finished lines an operation has.
ghost use Rattle.std.specs.Prelude.{◌≡◌};
ghost use Rattle.workbench.specs.Finished.{finished_lines};

use state::Op;

pub fn finished_lines(op: Op) -> usize
    ensures { result ≡ finished_lines op }
{
    match op {
        Op::Idle => 0,
        Op::Write { .. } => 1,
        Op::Commit { .. } => 0,
        Op::Consolidate { .. } => 0,
        Op::Checkpoint => 0,
        Op::Event { .. } => 2,
        Op::Prepare { .. } => 0,
        Op::Confirm { .. } => 0,
        Op::Log { .. } => 1,
        Op::Copy => 0,
        Op::Format => 0,
    }
}
