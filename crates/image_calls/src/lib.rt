// Format, mount, step, run and the next store: F, M, S, N and n.
#![tactic(auto)]

ghost use Rattle.std.specs.Prelude.{◌≡◌};
ghost use Rattle.state_words.specs.Decoded.{decoded};
ghost use Rattle.workbench.specs.Turns.{turn_at};
ghost use Rattle.image_calls.specs.Calls.{sizes_in, format_turn, mount_turn, step_turn, stepped_bytes, run_turn, ran_bytes, store_said, next_said};

use call_turns::answered;
use layout::Sizes;
use op_stores::Until;
use state_words::Words;
use text::Line;
use workbench::{Said, numbers};

// The sizes that a line names; L is 0 where it is left out.
fn sizes_in(line: Line) -> Sizes
    ensures { result ≡ sizes_in line }
{
    let [pages, slots, places, entries, ..] = line.numbers;
    Sizes {
        pages: pages as usize,
        slots: slots as usize,
        places: places as usize,
        entries: if line.count == 4 { entries as usize } else { 0 },
    }
}

pub fn format(image: &mut [u8], words: &mut Words, line: Line) -> Option<Said>
    ensures turn { turn_at result words.new ≡ format_turn (decoded words.old) image.old line }
    ensures bytes { image.new ≡ image.old }
{
    if (line.count == 3) | (line.count == 4) { // F,P,S,J or F,P,S,J,L
        let answer = call_mount::format(image, words, sizes_in(line), Until::Asked);
        return Some(answered(answer));
    }
    None
}

pub fn mount(image: &[u8], words: &mut Words, line: Line) -> Option<Said>
    ensures { turn_at result words.new ≡ mount_turn (decoded words.old) image.now line }
{
    numbers::<0>(line)?; // M
    let answer = call_mount::mount(image, words);
    Some(answered(answer))
}

pub fn step(image: &mut [u8], words: &mut Words, line: Line) -> Option<Said>
    ensures turn { turn_at result words.new ≡ step_turn (decoded words.old) image.old line }
    ensures bytes { image.new ≡ stepped_bytes (decoded words.old) image.old line }
{
    numbers::<0>(line)?; // S
    let answer = call_step::step(image, words);
    Some(answered(answer))
}

pub fn run(image: &mut [u8], words: &mut Words, line: Line) -> Option<Said>
    ensures turn { turn_at result words.new ≡ run_turn (decoded words.old) image.old line }
    ensures bytes { image.new ≡ ran_bytes (decoded words.old) image.old line }
{
    let [k] = numbers::<1>(line)?; // N,k
    let answer = call_step::run(image, words, k as usize);
    Some(answered(answer))
}

// The next store, or the row that turns the question back.
fn store_told(image: &[u8], words: &Words) -> Said
    ensures { result ≡ store_said (decoded words.now) image.now }
{
    match call_step::next_store(image, words) {
        Ok(next) => Said::Store {
            at: next.at,
            decides: next.decides,
        },
        Err(row) => Said::Answered {
            number: usize::from(row),
            count: 0,
        },
    }
}

pub fn next_store(image: &[u8], words: &Words, line: Line) -> Option<Said>
    ensures { result ≡ next_said (decoded words.now) image.now line }
{
    numbers::<0>(line)?; // n
    Some(store_told(image, words))
}
