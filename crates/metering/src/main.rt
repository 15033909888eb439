// Asks for 1,000 events, one after the other, on a store of 2 pages, 2 slots and 4 journal places: kinds, meters and amounts right and wrong, some of them
// cut short by a mount, and a checkpoint where the journal is full. Half-way a venue's moduli are loaded. Prints how many, a checksum of the answers and
// the meters, and credit.
#![tactic(auto)]

mod play;

use state_words::WORD_COUNT;

const HALF: usize = 500;

fn number(v: u64, end: &[u8]) {
    io::print_decimal(1, v);
    io::write_all(1, end);
}

fn main() {
    let mut image = [0u8; 16640];
    let mut words = [0u64; WORD_COUNT];
    let fresh = play::fresh(&mut image, &mut words);
    let first = play::events(&mut image, &mut words, fresh, HALF);
    let loaded = play::with_venue(&image, &words, first);
    let game = play::events(&mut image, &mut words, loaded, HALF);
    let credit = play::meter(&image, &words, 0);
    let sum = play::folded(&image, &words, game.sum);
    number(2 * HALF as u64, b" events: checksum ");
    number(sum, b", credit ");
    number(credit, b"\n");
}
