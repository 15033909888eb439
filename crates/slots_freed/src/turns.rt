// The list of calls, each followed by a run.
use crate::{calls, out};
use layout::Sizes;
use state_words::WORD_COUNT;

// Turns of the table, a line each, and 6,000 of the walk.
const TURNS: usize = 6294;

// Plays the list on a fresh store of 6 pages, 4 slots and 6 journal places.
pub fn play(image: &mut [u8]) {
    let z = Sizes {
        pages: 6,
        slots: 4,
        places: 6,
        entries: 0,
    };
    let mut words = [0u64; WORD_COUNT];
    let _ = call_mount::format_whole(image, &mut words, z);
    let mut sum = 0;
    let mut call = 0;
    for _ in 0..TURNS {
        call = calls::following(call);
        let answer = calls::made(image, &mut words, call);
        let ran = call_step::run(image, &mut words, call % 10000);
        sum = out::shown(sum, call, answer, ran, image);
    }
}
