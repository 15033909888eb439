// The calls of a round, each run to its end, and what they add to what came before.
ghost use Rattle.std.specs.Prelude.{◌≡◌, ℕ, ◌+◌, ◌%◌, ◌^◌, true, List};
ghost use Rattle.validity.specs.Validity.{state_ok};
ghost use Rattle.refinement.specs.Calls.{world_of};
ghost use Rattle.refinement.specs.Run.{begin, abort, write, commit, free, checkpoint, exec};
ghost use Rattle.answers.specs.Answers.{number_of, stores_of};
ghost use Rattle.state_words.specs.Decoded.{decoded, places_of};
ghost use Rattle.call_round.specs.Kept.{FineAt};
ghost use Rattle.call_round.specs.Round.{to_end, played_of, unplayed, made};

use crate::Round;
use answers::Answer;
use call_write::Span;
use op_stores::Until;
use state::Places;
use state_words::Words;

// An answer more.
fn told(t: Round, a: Answer) -> Round
    ensures { result ≡ record { number = number_of a; call = t.call; stores = (t.stores + stores_of a) % 2 ^ 64 } }
{
    Round {
        number: answers::number_of(a),
        call: t.call,
        stores: t.stores.wrapping_add(calling::stores_of(a) as u64),
    }
}

// Begin, the first call.
pub(crate) fn begin_made(at: Places, words: &mut Words, writer: usize) -> Round
    requires { (at ≡ places_of (decoded words.old)) × (state_ok (decoded words.old) ≡ true) }
    ensures { (img : List ℕ) → played_of result words.new img ≡ made (begin writer) (unplayed (world_of (decoded words.old) img)) }
{
    let answer = call_begin::begin_valid(at, words, writer);
    let none = Round {
        number: 0,
        call: 0,
        stores: 0,
    };
    told(none, answer)
}

// A write made as the next call of the round.
pub(crate) fn write_made(
    t: Round,
    image: &mut [u8],
    words: &mut Words,
    writer: usize,
    a: Span,
    data: &[u8],
) -> Round
    requires { FineAt words.old image.old }
    ensures came { played_of result words.new image.new
        ≡ made (write writer a.page a.line a.offset a.length «data».now) (played_of t words.old image.old) }
    ensures kept { FineAt words.new image.new }
{
    let z = state_words::sizes_in(words);
    let at = state_words::places_in(words);
    let answer = call_write::write_valid(image, z, at, words, writer, a, data, Until::End);
    told(t, answer)
}

// A commit made as the next call of the round.
pub(crate) fn commit_made(t: Round, image: &mut [u8], words: &mut Words, writer: usize) -> Round
    requires { FineAt words.old image.old }
    ensures came { played_of result words.new image.new ≡ made (commit writer) (played_of t words.old image.old) }
    ensures kept { FineAt words.new image.new }
{
    let z = state_words::sizes_in(words);
    let at = state_words::places_in(words);
    let answer = call_commit::commit_valid(image, z, at, words, writer, Until::End);
    told(t, answer)
}

// A slot freed as the next call of the round, where none was free.
pub(crate) fn free_made(t: Round, image: &mut [u8], words: &mut Words) -> Round
    requires { FineAt words.old image.old }
    ensures came { played_of result words.new image.new ≡ made free (played_of t words.old image.old) }
    ensures kept { FineAt words.new image.new }
{
    let z = state_words::sizes_in(words);
    let at = state_words::places_in(words);
    let answer = call_consolidate::free_valid(image, z, at, words, Until::End);
    told(t, answer)
}

// A checkpoint made as the next call of the round, where the journal was full.
pub(crate) fn checkpoint_made(t: Round, image: &mut [u8], words: &mut Words) -> Round
    requires { FineAt words.old image.old }
    ensures came { played_of result words.new image.new ≡ made checkpoint (played_of t words.old image.old) }
    ensures kept { FineAt words.new image.new }
{
    let answer = call_checkpoint::checkpoint(image, words, Until::End);
    told(t, answer)
}

// An abort. It needs no stores.
pub(crate) fn abort_made(words: &mut Words, writer: usize)
    requires { state_ok (decoded words.old) ≡ true }
    ensures { (img : List ℕ) → world_of (decoded words.new) img
        ≡ (to_end (exec (abort writer) (world_of (decoded words.old) img))).world }
{
    let z = state_words::sizes_in(words);
    let at = state_words::places_in(words);
    let _ = call_begin::abort_valid(z, at, words, writer);
}
