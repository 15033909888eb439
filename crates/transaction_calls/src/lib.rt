// Begin, abort, and the calls that ask for an operation, or perform it in place: B, A, V, C, D, P, W and b, a, v, c, d, p, w.
#![tactic(auto)]

pub mod prepared;

ghost use Rattle.std.specs.Prelude.{◌≡◌};
ghost use Rattle.state_words.specs.Decoded.{decoded};
ghost use Rattle.workbench.specs.Turns.{turn_at};
ghost use Rattle.transaction_calls.specs.Calls.{begin_turn, begin_wide_turn, abort_turn, commit_turn, commit_bytes, consolidate_turn, consolidate_bytes};
ghost use Rattle.transaction_calls.specs.Calls.{checkpoint_turn, checkpoint_bytes, write_turn, write_bytes};

use call_turns::{answered, until_by};
use state_words::Words;
use text::Line;
use workbench::{Said, numbers};

pub fn begin(words: &mut Words, line: Line) -> Option<Said>
    ensures { turn_at result words.new ≡ begin_turn (decoded words.old) line }
{
    let [w] = numbers::<1>(line)?; // B,w
    let answer = call_begin::begin(words, w as usize);
    Some(answered(answer))
}

pub fn begin_wide(words: &mut Words, line: Line) -> Option<Said>
    ensures { turn_at result words.new ≡ begin_wide_turn (decoded words.old) line }
{
    let [w] = numbers::<1>(line)?; // V,w
    let answer = call_begin::begin_wide(words, w as usize);
    Some(answered(answer))
}

pub fn abort(words: &mut Words, line: Line) -> Option<Said>
    ensures { turn_at result words.new ≡ abort_turn (decoded words.old) line }
{
    let [w] = numbers::<1>(line)?; // A,w
    let answer = call_begin::abort(words, w as usize);
    Some(answered(answer))
}

pub fn commit(image: &mut [u8], words: &mut Words, line: Line, whole: bool) -> Option<Said>
    ensures turn { turn_at result words.new ≡ commit_turn whole (decoded words.old) image.old line }
    ensures bytes { image.new ≡ commit_bytes whole (decoded words.old) image.old line }
{
    let [w] = numbers::<1>(line)?; // C,w
    let answer = call_commit::commit(image, words, w as usize, until_by(whole));
    Some(answered(answer))
}

pub fn consolidate(image: &mut [u8], words: &mut Words, line: Line, whole: bool) -> Option<Said>
    ensures turn { turn_at result words.new ≡ consolidate_turn whole (decoded words.old) image.old line }
    ensures bytes { image.new ≡ consolidate_bytes whole (decoded words.old) image.old line }
{
    let [p] = numbers::<1>(line)?; // D,p
    let answer = call_consolidate::consolidate(image, words, p as usize, until_by(whole));
    Some(answered(answer))
}

pub fn checkpoint(image: &mut [u8], words: &mut Words, line: Line, whole: bool) -> Option<Said>
    ensures turn { turn_at result words.new ≡ checkpoint_turn whole (decoded words.old) image.old line }
    ensures bytes { image.new ≡ checkpoint_bytes whole (decoded words.old) image.old line }
{
    numbers::<0>(line)?; // P
    let answer = call_checkpoint::checkpoint(image, words, until_by(whole));
    Some(answered(answer))
}

// Five numbers, then at most 64 bytes.
pub fn write(image: &mut [u8], words: &mut Words, line: Line, whole: bool) -> Option<Said>
    ensures turn { turn_at result words.new ≡ write_turn whole (decoded words.old) image.old line }
    ensures bytes { image.new ≡ write_bytes whole (decoded words.old) image.old line }
{
    if !calling::has_data(line.count, &line.numbers) {
        return None;
    }
    let answer = calling::write_until(image, words, line.count, &line.numbers, until_by(whole));
    Some(answered(answer))
}
