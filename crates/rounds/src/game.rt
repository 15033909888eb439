// A game on the store: a round writes a line to each of two pages. The game keeps the state, 256 words, and the image, and lends both to each round, which
// is one call.
ghost use Rattle.std.specs.Prelude.{◌<◌};

use crate::Image;
use call_round::Room;
use state_words::Words;

// Plays round r on a pair of pages: one of 24 lines of the first, as meters are, and the next of the 64 of the second, as a history is. Each is filled with
// one word. Where the journal is full it is emptied; where no slot is free, one is freed. Returns how many stores were made.
pub fn round(image: &mut Image, words: &mut Words, pair: usize, r: usize) -> u64
    requires { pair < 8 }
{
    let v = 2 * (r as u64 % 4294967296) + 1;
    let first = 2 * pair as u64;
    let writes = [first, r as u64 % 24, 0, 64, first + 1, r as u64 % 64, 0, 64];
    let mut data = [0u8; 128];
    runs::fill_words(&mut data, 0, 8, v);
    runs::fill_words(&mut data, 64, 8, v + 1);
    let room = Room {
        checkpoint: true,
        free: true,
    };
    call_round::play(image, words, 0, &writes, &data, room).stores
}
