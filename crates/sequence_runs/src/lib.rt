// A sequence of calls on a fresh image, the last one cut, and what a mount then finds.
#![tactic(auto)]

mod calls;
mod turns;

ghost use Rattle.std.specs.Prelude.{◌≡◌, length, replicate};
ghost use Rattle.refinement.specs.Stores.{World};
ghost use Rattle.sequence_runs.specs.Runs.{start, ran, first_byte, played_of};

use layout::Sizes;
use state_words::WORD_COUNT;

// What comes of a sequence beside its answers: the stores that its last call needs (0 where there is none), and the first bytes of lines 0
// and 1 of page 0 after a mount.
#[derive(Clone, Copy)]
pub struct Played {
    pub needed: usize,
    pub first: u8,
    pub second: u8,
}

// The first byte of a line of page 0, as a recall shows it: it mounts.
fn first_byte(image: &[u8], line: usize) -> u8
    ensures { (v : World) → v.image ≡ image.now → result ≡ first_byte v line }
{
    let mut target = [0u8; 64];
    recalling::recall(0, line, image, &mut target);
    target[0]
}

// The bytes to format.
fn blank() -> [u8; 8320]
    ensures { result ≡ replicate 8320 0 }
{
    [0; 8320]
}

// Makes the calls of these numbers on a fresh image, cuts the last one after k stores, and puts down their answers.
pub fn play(numbers: &[u64], k: usize, answers: &mut [u64]) -> Played
    requires { length answers.old ≡ length numbers.now }
    ensures played { result ≡ played_of (ran k numbers.now start) }
    ensures answers { answers.new ≡ (ran k numbers.now start).answers }
{
    let mut image = blank();
    let mut words = [0u64; WORD_COUNT];
    let sizes = Sizes {
        pages: 1,
        slots: 1,
        places: 1,
        entries: 0,
    };
    let _ = call_mount::format_whole(&mut image, &mut words, sizes);
    let needed = turns::perform(&mut image, &mut words, numbers, k, answers);
    Played {
        needed,
        first: first_byte(&image, 0),
        second: first_byte(&image, 1),
    }
}
