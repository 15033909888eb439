// Calls one after the other, each with its stores.
ghost use Rattle.std.specs.Prelude.{◌≡◌, length};
ghost use Rattle.sequence_runs.specs.Runs.{budget, ran};
ghost use Rattle.sequence_runs.specs.Turns.{Turned, begun};

use crate::calls;
use state_words::Words;

// The number of a call's answer, and the stores that it needs.
#[derive(Clone, Copy)]
struct Made {
    number: usize,
    needed: usize,
}

// How many stores a call may make.
fn budget_of(last: bool, k: usize, needed: usize) -> usize
    ensures { result ≡ budget last k needed }
{
    if last { k } else { needed }
}

// One call, and its stores: all of them, or at most k where it is the last call.
fn turn(image: &mut [u8], words: &mut Words, c: u64, last: bool, k: usize) -> Made
    ensures { Turned last k c words.old image.old result words.new image.new }
{
    let answer = calls::ask(image, words, c);
    let number = answers::number_of(answer);
    let needed = calling::stores_of(answer);
    let _ = call_step::run(image, words, budget_of(last, k, needed));
    Made { number, needed }
}

// The calls of these numbers; gives the stores that the last one needs.
pub fn perform(
    image: &mut [u8],
    words: &mut Words,
    numbers: &[u64],
    k: usize,
    answers: &mut [u64],
) -> usize
    requires { length answers.old ≡ length numbers.now }
    ensures needed { result ≡ (ran k numbers.now (begun words.old image.old)).needed }
    ensures bytes { image.new ≡ (ran k numbers.now (begun words.old image.old)).world.image }
    ensures answers { answers.new ≡ (ran k numbers.now (begun words.old image.old)).answers }
{
    let mut needed = 0;
    for (i, &c) in numbers.iter().enumerate() {
        let t = turn(image, words, c, i + 1 == numbers.len(), k);
        answers[i] = t.number as u64;
        needed = t.needed;
    }
    needed
}
