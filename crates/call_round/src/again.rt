// Calls that a round makes again once there is room.
ghost use Rattle.std.specs.Prelude.{◌≡◌};
ghost use Rattle.refinement.specs.Run.{write, commit, free};
ghost use Rattle.state_words.specs.Decoded.{decoded};
ghost use Rattle.call_round.specs.Kept.{FineAt};
ghost use Rattle.call_round.specs.Round.{played_of, with_journal, put};

use crate::{Room, Round, calls};
use call_write::Span;
use state_words::Words;

// A slot freed; where the journal is full, after a checkpoint if that is asked for.
fn free_slot(t: Round, image: &mut [u8], words: &mut Words, checkpoint: bool) -> Round
    requires { FineAt words.old image.old }
    ensures played { played_of result words.new image.new
        ≡ with_journal checkpoint free (played_of t words.old image.old) }
    ensures kept { FineAt words.new image.new }
{
    let first = calls::free_made(t, image, words);
    if !checkpoint {
        return first;
    }
    if first.number != 19 {
        return first;
    }
    let emptied = calls::checkpoint_made(first, image, words);
    calls::free_made(emptied, image, words)
}

// A write; where no slot is free, after one is freed if that is asked for.
pub(crate) fn put(
    t: Round,
    image: &mut [u8],
    words: &mut Words,
    writer: usize,
    a: Span,
    data: &[u8],
    room: Room,
) -> Round
    requires { FineAt words.old image.old }
    ensures played { played_of result words.new image.new
        ≡ put room (write writer a.page a.line a.offset a.length «data».now) (played_of t words.old image.old) }
    ensures kept { FineAt words.new image.new }
{
    let first = calls::write_made(t, image, words, writer, a, data);
    if !room.free {
        return first;
    }
    if first.number != 15 {
        return first;
    }
    let freed = free_slot(first, image, words, room.checkpoint);
    if freed.number != 0 {
        return freed;
    }
    calls::write_made(freed, image, words, writer, a, data)
}

// A commit; where the journal is full, after a checkpoint if that is asked for.
pub(crate) fn commit(
    t: Round,
    image: &mut [u8],
    words: &mut Words,
    writer: usize,
    checkpoint: bool,
) -> Round
    requires { FineAt words.old image.old }
    ensures played { played_of result words.new image.new
        ≡ with_journal checkpoint (commit writer) (played_of t words.old image.old) }
    ensures kept { FineAt words.new image.new }
{
    let first = calls::commit_made(t, image, words, writer);
    if !checkpoint {
        return first;
    }
    if first.number != 19 {
        return first;
    }
    let emptied = calls::checkpoint_made(first, image, words);
    calls::commit_made(emptied, image, words, writer)
}
