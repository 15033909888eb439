// How many stores an operation needs.
ghost use Rattle.std.specs.Prelude.{◌≡◌, ◌≤◌, length};
ghost use Rattle.layout.specs.Layout.{Legal};
ghost use Rattle.operations.specs.Operations.{Asked, recorded_slots, checkpoint_needs, needs};
ghost use Rattle.state_words.specs.Decoded.{decoded};
ghost use Rattle.op_rows.specs.Seen.{seen};

use layout::Sizes;
use state::{Op, Places};
use state_held::held::held_count;
use state_words::Words;

// How many slots have a live record.
pub fn recorded_count(z: Sizes, words: &Words) -> usize
    requires { Legal z }
    ensures { result ≡ length (recorded_slots z (decoded words.now).table.last) }
{
    (0..z.slots)
        .filter(|&s| state_words::last_at(words, s) != replay::NO_POSITION)
        .count()
}

// The stores that a checkpoint needs.
pub fn checkpoint_needs(z: Sizes, at: Places, words: &Words) -> usize
    requires { Legal z }
    ensures { result ≡ checkpoint_needs at.head at.tail (length (recorded_slots z (decoded words.now).table.last)) }
{
    if at.head == at.tail {
        return 0;
    }
    3 * recorded_count(z, words) + 1
}

// The stores that an operation needs, which no row turns back.
#[tactic(auto, unfolding(operations::specs::Operations::needs))]
pub fn op_needs(z: Sizes, at: Places, words: &Words, op: Op) -> usize
    requires { Legal z × (at.count ≤ 64) × Asked z (decoded words.now).table.page op }
    ensures { result ≡ needs (seen z at (decoded words.now)) op }
{
    match op {
        Op::Idle => 0,
        Op::Write { .. } => 8,
        Op::Commit { writer } => needs::commit_needs(held_count(z, words, writer)),
        Op::Consolidate { page } => {
            let s = state_held::slots::slot_of(z, words, page);
            needs::consolidate_needs(state_words::bitmap_at(words, s))
        }
        Op::Checkpoint => checkpoint_needs(z, at, words),
        Op::Event { kind, .. } => meters::event_needs(kind),
        Op::Prepare { writer } => needs::prepare_needs(held_count(z, words, writer)),
        Op::Confirm { writer } => needs::confirm_needs(held_count(z, words, writer)),
        Op::Log { .. } => 9,
        Op::Copy => needs::copy_needs(at.count),
        Op::Format => needs::format_needs(z),
    }
}
