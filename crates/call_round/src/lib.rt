// A round in one call: begin, writes and a commit, one after the other, each run to its end, with an abort behind the first refusal. Row 8 is tested once:
// each of these calls leaves a state that it accepts.
#![tactic(auto)]

mod again;
mod calls;
mod typed;

ghost use Rattle.std.specs.Prelude.{◌≡◌, ◌+◌, ◌*◌, ◌^◌, ◌<◌, ◌≤◌, length, slice_index};
ghost use Rattle.refinement.specs.Calls.{world_of};
ghost use Rattle.state_words.specs.Decoded.{decoded};
ghost use Rattle.call_round.specs.Kept.{FineAt};
ghost use Rattle.call_round.specs.Round.{played_of, put_all, committed, round_of};

use call_write::Span;
use state_words::Words;

// What a round does for want of room: where the journal is full (19) a checkpoint, where no slot is free (15) it frees one.
#[derive(Clone, Copy, Debug, PartialEq, Eq)]
pub struct Room {
    pub checkpoint: bool,
    pub free: bool,
}

// What comes of a round: the number of its last answer, which call gave it (0 is begin, then the writes, then the commit), and the stores made.
// No Result: the C interface tells the number, the call and the stores side by side whether the round is refused or not, and so does the definition (`Played`).
#[derive(Clone, Copy, Debug, PartialEq, Eq)]
pub struct Round {
    pub number: usize,
    pub call: usize,
    pub stores: u64,
}

// The write whose four numbers stand from k on: page, line, offset, length.
fn span_at(writes: &[u64], k: usize) -> Span
    requires { k + 4 ≤ length writes.now }
    ensures { result ≡ record {
      page = slice_index writes.now k;
      line = slice_index writes.now (k + 1);
      offset = slice_index writes.now (k + 2);
      length = slice_index writes.now (k + 3);
    } }
{
    Span {
        page: writes[k] as usize,
        line: writes[k + 1] as usize,
        offset: writes[k + 2] as usize,
        length: writes[k + 3] as usize,
    }
}

// The writes, as long as each is taken.
fn put_all(
    t: Round,
    image: &mut [u8],
    words: &mut Words,
    writer: usize,
    writes: &[u64],
    data: &[u8],
    room: Room,
) -> Round
    requires { FineAt words.old image.old × (t.call ≡ 0) }
    ensures played { played_of result words.new image.new
        ≡ put_all room writer writes.now «data».now (played_of t words.old image.old) }
    ensures kept { FineAt words.new image.new }
    ensures few { 4 * result.call ≤ length writes.now }
{
    let mut t = t;
    let mut at = 0;
    for k in 0..writes.len() / 4 {
        let a = span_at(writes, 4 * k);
        t.call += 1;
        t = again::put(t, image, words, writer, a, &data[at..], room);
        if t.number != 0 {
            return t;
        }
        at += bounded::smaller(a.length, data.len() - at);
    }
    t
}

// A commit, where all writes are taken.
fn commit_written(t: Round, image: &mut [u8], words: &mut Words, writer: usize, room: Room) -> Round
    requires { FineAt words.old image.old × (t.call < 2 ^ 63) }
    ensures played { played_of result words.new image.new
        ≡ committed room writer (played_of t words.old image.old) }
    ensures kept { FineAt words.new image.new }
{
    let number = t.number;
    if number != 0 {
        return t;
    }
    let mut next = t;
    next.call += 1;
    again::commit(next, image, words, writer, room.checkpoint)
}

// Plays a round: begin, the writes, a commit. Four words are a write: page, line, offset and length; the bytes of the writes stand in data one after the
// other. Where a call is refused the round stops, and what it wrote is dropped.
pub fn play(
    image: &mut [u8],
    words: &mut Words,
    writer: usize,
    writes: &[u64],
    data: &[u8],
    room: Room,
) -> Round
    ensures { played_of result words.new image.new
        ≡ round_of room writer writes.now «data».now (world_of (decoded words.old) image.old) }
{
    let z = state_words::sizes_in(words);
    let at = state_words::places_in(words);
    if !state_rules::state_ok(z, at, words) {
        return Round {
            number: 8,
            call: 0,
            stores: 0,
        };
    }
    let _ = typed::words_sized(*words);
    let begun = calls::begin_made(at, words, writer);
    if begun.number != 0 {
        return begun;
    }
    let written = put_all(begun, image, words, writer, writes, data, room);
    let last = commit_written(written, image, words, writer, room);
    if last.number == 0 {
        return last;
    }
    calls::abort_made(words, writer);
    last
}
