// The stores that a call needs: all of them, or under a K at most k, and then a mount.
ghost use Rattle.std.specs.Prelude.{◌≡◌, true, eqb, None};
ghost use Rattle.printing.specs.declared.Output.TheVariants.{Answered};
ghost use Rattle.state_words.specs.Decoded.{decoded};
ghost use Rattle.executing.specs.Called.{budget, after_cut, world_at, result_at, turn_at, finished};

use crate::{Mode, Turned};
use answers::Answer;
use printing::Output;
use state_words::Words;

// How many stores may be made.
fn budget_of(cut: Option<usize>, needed: usize) -> usize
    ensures { result ≡ budget cut needed }
{
    cut.unwrap_or(needed)
}

// What follows the stores: under a K a mount, whose number then is the line's.
fn mount_cut(image: &[u8], words: &mut Words, cut: Option<usize>, number: usize) -> usize
    ensures number { result ≡ (after_cut cut number (world_at words.old image.now)).number }
    ensures state { decoded words.new ≡ (after_cut cut number (world_at words.old image.now)).world.st }
{
    match cut {
        None => number,
        Some(_) => {
            let answer = call_mount::mount(image, words);
            answers::number_of(answer)
        }
    }
}

// A call's answer, and the mode after it.
pub fn answered(cut: Option<usize>, letter: u8, number: usize, stores: usize) -> Turned
    ensures { result ≡ record { mode = record { formatted = true; cut = cut }; output = Answered letter number stores } }
{
    let mode = Mode {
        formatted: true,
        cut,
    };
    let output = Output::Answered {
        letter,
        number,
        stores,
    };
    Turned { mode, output }
}

// The answer when the stores are made: a K is used up. Where its mount was turned back, only a format is obeyed from now on.
fn ended(letter: u8, number: usize, stores: usize) -> Turned
    ensures { result ≡ record { mode = record { formatted = eqb number 0; cut = None }; output = Answered letter number stores } }
{
    let mode = Mode {
        formatted: number == 0,
        cut: None,
    };
    let output = Output::Answered {
        letter,
        number,
        stores,
    };
    Turned { mode, output }
}

// What a call came to that was asked for; one that needs stores makes them.
pub fn finish(
    image: &mut [u8],
    words: &mut Words,
    cut: Option<usize>,
    letter: u8,
    answer: Answer,
) -> Turned
    ensures { turn_at result words.new image.new ≡ finished letter cut (result_at answer words.old image.old) }
{
    let number = answers::number_of(answer);
    let needed = calling::stores_of(answer);
    if needed == 0 {
        return answered(cut, letter, number, 0);
    }
    let run_answer = call_step::run(image, words, budget_of(cut, needed));
    let made = calling::stores_of(run_answer);
    let last = mount_cut(image, words, cut, number);
    ended(letter, last, made)
}
