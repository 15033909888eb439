// The list of calls, each followed by a run, a recall and a read of its line.
use crate::shown::write_number;
use crate::{calls, shown};
use state_words::Words;

// Rows of the table and of the walk.
const TURNS: usize = 5000;

// One number more in a checksum.
fn with(sum: u64, number: u64) -> u64 {
    (31 * (sum % 4294967291) + number % 4294967291) % 4294967291
}

// The numbers of a turn, and the hash of the image.
fn show(image: &[u8; 25192], made: u64, stores: u64, recalled: u64, read: u64) {
    for number in [made, stores, recalled, read] {
        write_number(number, b",");
    }
    write_number(hashing::hash(image), b"\n");
}

// A turn, and the checksum with its numbers.
fn turn(image: &mut [u8; 25192], words: &mut Words, place: usize, sum: u64) -> u64 {
    let row = calls::row_at(place);
    let answer = calls::made(image, words, row, (1 + place / 2 % 3) as u8);
    let ran = call_step::run(image, words, row.stores);
    let made = shown::code(answer);
    let stores = shown::code(ran);
    let recalled = shown::recalled(image, row.page, row.line);
    let read = shown::read(image, words, row.writer, row.page, row.line);
    let sum = with(with(with(with(sum, made), stores), recalled), read);
    if place < calls::ROWS {
        show(image, made, stores, recalled, read);
    }
    sum
}

// A line for each row of the table; of the walk one for every hundredth.
pub fn play(image: &mut [u8; 25192], words: &mut Words) {
    calls::fresh(image, words);
    let mut sum = 0;
    for place in 0..TURNS {
        sum = turn(image, words, place, sum);
        if place % 100 == 99 {
            write_number(place as u64, b",");
            write_number(sum, b",");
            write_number(hashing::hash(image), b"\n");
        }
    }
}
