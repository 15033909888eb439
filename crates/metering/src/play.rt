// Events drawn by a linear congruence, each run to its end or cut.
ghost use Rattle.std.specs.Prelude.{◌≡◌, ◌+◌, ◌*◌, ◌%◌};

use answers::number_of;
use layout::Sizes;
use op_stores::Until;
use state_words::Words;

// A venue's moduli.
const VENUE: [u8; 251] =
    *b"0,300000000\n1,1000000000000\n2,100000000\n3,250000000\n4,999999937\n5,1000000\n6,2000000\n7,1000000\n\
        8,1000003\n9,1000000\n10,1000000\n11,1000000\n12,3000000\n13,1000000\n14,1000000\n15,10007\n\
        16,10000\n17,10000\n18,100000\n19,10000\n20,10000\n21,10000\n22,10000\n23,20000\n";

// Moduli that the meters have outgrown.
const SMALL: [u8; 158] = *b"0,100\n1,100\n2,100\n3,100\n4,100\n5,100\n6,100\n7,100\n\
        8,100\n9,100\n10,100\n11,100\n12,100\n13,100\n14,100\n15,100\n\
        16,100\n17,100\n18,100\n19,100\n20,100\n21,100\n22,100\n23,100\n";

// The moduli, the checksum so far, and the number drawn last. The state is in words beside it.
#[derive(Clone, Copy, Debug, PartialEq, Eq)]
pub struct Game {
    pub moduli: [u64; 24],
    pub sum: u64,
    pub seed: u64,
}

// The number drawn after this one, below 2^31.
fn drawn(seed: u64) -> u64
    ensures { result ≡ (seed % 2147483648 * 1103515245 + 12345) % 2147483648 }
{
    (seed % 2147483648 * 1103515245 + 12345) % 2147483648
}

// One number more in the checksum.
fn with(sum: u64, number: u64) -> u64
    ensures { result ≡ (31 * (sum % 4294967291) + number % 4294967291) % 4294967291 }
{
    (31 * (sum % 4294967291) + number % 4294967291) % 4294967291
}

// An amount: mostly a small one, at times one that may be too large.
fn amount_of(drawn: u64) -> u64 {
    if drawn / 65536 % 4 == 0 {
        return drawn % 150000000;
    }
    drawn % 20000
}

// Makes at most k stores; where more are needed, power goes.
fn run_or_cut(image: &mut [u8; 16640], words: &mut Words, k: usize, needed: usize) {
    let _ = call_step::run(image, words, k);
    if k < needed {
        let _ = call_mount::mount(image, words);
    }
}

// Asks for one event, and gives the answer's number. Where the journal is full, a checkpoint follows.
fn ask(
    image: &mut [u8; 16640],
    words: &mut Words,
    kind: usize,
    meter: usize,
    amount: u64,
    moduli: &[u64],
    k: usize,
) -> u64 {
    let answer = call_event::event(image, words, kind, meter, amount, moduli, Until::Asked);
    let number = number_of(answer) as u64;
    if number == 19 {
        let _ = call_checkpoint::checkpoint(image, words, Until::End);
    } else if number == 0 {
        run_or_cut(image, words, k, meters::event_needs(kind));
    }
    number
}

// One turn: kind 0 to 6, meter 0 to 25, an amount, and the stores allowed, 0 to 43.
fn turn(image: &mut [u8; 16640], words: &mut Words, game: Game) -> Game {
    let a = drawn(game.seed);
    let b = drawn(a);
    let c = drawn(b);
    let d = drawn(c);
    let kind = (a / 65536 % 7) as usize;
    let meter = (b / 65536 % 26) as usize;
    let k = (d / 65536 % 44) as usize;
    let number = ask(image, words, kind, meter, amount_of(c), &game.moduli, k);
    Game {
        sum: with(game.sum, number),
        seed: d,
        ..game
    }
}

// A fresh store, with the fixed moduli.
pub fn fresh(image: &mut [u8; 16640], words: &mut Words) -> Game {
    let _ = call_mount::format_whole(
        image,
        words,
        Sizes {
            pages: 2,
            slots: 2,
            places: 4,
            entries: 0,
        },
    );
    Game {
        moduli: meters::fixed_moduli(),
        sum: 0,
        seed: 1,
    }
}

// The moduli of a text loaded, the ones before where the load is refused, and its answer in the checksum.
fn with_text(image: &[u8; 16640], words: &Words, game: Game, text: &[u8]) -> Game {
    match call_load::load(image, words, text) {
        Ok(moduli) => Game {
            moduli,
            sum: with(game.sum, 0),
            ..game
        },
        Err(row) => Game {
            sum: with(game.sum, usize::from(row) as u64),
            ..game
        },
    }
}

// Texts of a wrong count and a wrong range are turned back, then moduli that the meters have outgrown; a venue's are taken.
pub fn with_venue(image: &[u8; 16640], words: &Words, game: Game) -> Game {
    let a = with_text(image, words, game, b"0,100\n");
    let b = with_text(image, words, a, b"0,99\n1,x");
    let c = with_text(image, words, b, &SMALL);
    with_text(image, words, c, &VENUE)
}

// The game after n events more.
pub fn events(image: &mut [u8; 16640], words: &mut Words, game: Game, n: usize) -> Game {
    let mut game = game;
    for _ in 0..n {
        game = turn(image, words, game);
    }
    game
}

// The stored number of meter m.
pub fn meter(image: &[u8; 16640], words: &Words, m: usize) -> u64 {
    let mut line = [0u8; 64];
    let _ = call_read::read(image, words, 0, 0, m, &mut line);
    image_words::read_word(&line, 0)
}

// The checksum with the 24 meters.
pub fn folded(image: &[u8; 16640], words: &Words, sum: u64) -> u64 {
    let mut sum = sum;
    for m in 0..24 {
        sum = with(sum, meter(image, words, m));
    }
    sum
}
