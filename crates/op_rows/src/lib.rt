// The rows from 11 on of each operation on a state in words, and the stores that it needs.
#![tactic(auto)]

mod committing;
mod counting;
mod events;
mod room;
mod writing;

ghost use Rattle.std.specs.Prelude.{◌≡◌, ◌≤◌};
ghost use Rattle.bounded.specs.Rows.{refusal};
ghost use Rattle.rows.specs.Numbers.{row_of};
ghost use Rattle.operations.specs.Operations.{op_rows};
ghost use Rattle.state_words.specs.Decoded.{decoded};
ghost use Rattle.op_rows.specs.Seen.{Low, seen};

pub use committing::{commit_row, consolidate_row};
use committing::{confirm_row, copy_row, prepare_row};
pub use counting::op_needs;
pub use events::event_next_row;
use events::event_row;
use layout::Sizes;
pub use room::no_room;
use rows::Refusal;
use state::{Op, Places};
use state_held::slots::slot_of;
use state_words::Words;
pub use writing::{log_row, write_row};

// Where a write goes: a page, a line of it, and the bytes of that line.
#[derive(Clone, Copy)]
pub struct Span {
    pub page: usize,
    pub line: usize,
    pub offset: usize,
    pub length: usize,
}

// The first row from 11 on that turns an operation back.
pub fn op_row(z: Sizes, at: Places, words: &Words, op: Op) -> Result<(), Refusal>
    requires { Low z at × (at.count ≤ 64) }
    ensures { row_of result ≡ refusal (op_rows (seen z at (decoded words.now)) op) }
{
    match op {
        Op::Idle | Op::Checkpoint | Op::Format => Ok(()),
        Op::Write {
            writer,
            page,
            line,
            offset,
            length,
        } => {
            let span = Span {
                page,
                line,
                offset,
                length,
            };
            write_row(z, at, words, writer, span, slot_of(z, words, page))
        }
        Op::Commit { writer } => commit_row(z, at, words, writer),
        Op::Consolidate { page } => consolidate_row(z, at, words, page),
        Op::Event { kind, meter, .. } => event_row(z, at, words, kind, meter),
        Op::Prepare { writer } => prepare_row(z, at, words, writer),
        Op::Confirm { writer } => confirm_row(at.prepared, writer),
        Op::Log {
            page,
            line,
            offset,
            length,
        } => {
            let span = Span {
                page,
                line,
                offset,
                length,
            };
            log_row(z, at, words, span)
        }
        Op::Copy => copy_row(at.prepared),
    }
}
