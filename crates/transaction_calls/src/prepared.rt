// A slot made free, prepare, confirm and withdraw: X, I, J and Z. None makes a store.
ghost use Rattle.std.specs.Prelude.{◌≡◌};
ghost use Rattle.state_words.specs.Decoded.{decoded};
ghost use Rattle.workbench.specs.Turns.{turn_at};
ghost use Rattle.transaction_calls.specs.Calls.{free_turn, prepare_turn, confirm_turn, withdraw_turn};

use call_turns::answered;
use op_stores::Until;
use state_words::Words;
use text::Line;
use workbench::{Said, numbers};

pub fn free_slot(image: &mut [u8], words: &mut Words, line: Line) -> Option<Said>
    ensures turn { turn_at result words.new ≡ free_turn (decoded words.old) image.old line }
    ensures bytes { image.new ≡ image.old }
{
    numbers::<0>(line)?; // X
    let answer = call_consolidate::free_slot(image, words, Until::Asked);
    Some(answered(answer))
}

pub fn prepare(image: &mut [u8], words: &mut Words, line: Line) -> Option<Said>
    ensures turn { turn_at result words.new ≡ prepare_turn (decoded words.old) image.old line }
    ensures bytes { image.new ≡ image.old }
{
    let [w] = numbers::<1>(line)?; // I,w
    let answer = call_prepare::prepare(image, words, w as usize, Until::Asked);
    Some(answered(answer))
}

pub fn confirm(image: &mut [u8], words: &mut Words, line: Line) -> Option<Said>
    ensures turn { turn_at result words.new ≡ confirm_turn (decoded words.old) image.old line }
    ensures bytes { image.new ≡ image.old }
{
    let [w] = numbers::<1>(line)?; // J,w
    let answer = call_prepare::confirm(image, words, w as usize, Until::Asked);
    Some(answered(answer))
}

pub fn withdraw(image: &[u8], words: &mut Words, line: Line) -> Option<Said>
    ensures { turn_at result words.new ≡ withdraw_turn (decoded words.old) image.now line }
{
    let [w] = numbers::<1>(line)?; // Z,w
    let answer = call_prepare::withdraw(image, words, w as usize);
    Some(answered(answer))
}
