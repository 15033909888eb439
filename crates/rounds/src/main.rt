// Plays N game rounds on a store of 16 pages, 4 slots and 64 journal places. Prints N, the rounds that a pair of pages stays, the stores made and a checksum
// of the pages as read shows them.
#![tactic(auto)]

mod arguments;
mod game;

ghost use Rattle.std.specs.Prelude.{◌<◌};

use layout::Sizes;
use state_words::{WORD_COUNT, Words};

// The image of such a store.
type Image = [u8; 84288];
// Rounds where no argument names another number.
const ROUNDS: usize = 100;
// Rounds that a pair of pages stays, likewise.
const STAY: usize = 64;

// The pair of pages of round r, of eight; each pair stays for so many rounds.
fn pair_of(r: usize, stay: usize) -> usize
    ensures { result < 8 }
{
    if stay == 0 {
        return 0;
    }
    r / stay % 8
}

// Plays n rounds on a fresh store, and says how many stores they made.
fn play(image: &mut Image, words: &mut Words, n: usize, stay: usize) -> u64 {
    let z = Sizes {
        pages: 16,
        slots: 4,
        places: 64,
        entries: 0,
    };
    let _ = call_mount::format_whole(image, words, z);
    let mut stores: u64 = 0;
    for r in 0..n {
        stores = stores.wrapping_add(game::round(image, words, pair_of(r, stay), r));
    }
    stores
}

fn number(v: u64, end: &[u8]) {
    io::print_decimal(1, v);
    io::write_all(1, end);
}

fn main(rt: HostRuntime) {
    let n = arguments::at(&rt, 1, ROUNDS);
    let stay = arguments::at(&rt, 2, STAY);
    let mut image = [0u8; 84288];
    let mut words = [0u64; WORD_COUNT];
    let stores = play(&mut image, &mut words, n, stay);
    number(n as u64, b" rounds, ");
    number(stay as u64, b" to a pair of pages: ");
    number(stores, b" stores, checksum ");
    number(page_sums::of_pages(&image, &words), b"\n");
}
