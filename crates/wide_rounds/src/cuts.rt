// A wide round cut after each of its stores.
use crate::shown::write_number;
use crate::{calls, shown};
use op_stores::Until;
use state_words::Words;

// The lines of the round.
const LINES: [[usize; 2]; 5] = [[0, 0], [1, 63], [2, 3], [3, 63], [0, 1]];

// Writes what a recall shows of the round's lines, each after a comma.
fn show_lines(image: &[u8]) {
    for [page, line] in LINES {
        io::write_all(1, b",");
        write_number(shown::recalled(image, page, line), b"");
    }
}

// A mount and a run of at most k stores: the mount's answer and the run's, and what a recall shows then.
fn mount_and_run(image: &mut [u8; 25192], words: &mut Words, k: usize) {
    let mounted = call_mount::mount(image, words);
    io::write_all(1, b",");
    write_number(shown::code(mounted), b",");
    let ran = call_step::run(image, words, k);
    write_number(shown::code(ran), b"");
    show_lines(image);
}

// Plays the round up to its commit.
fn play_round(image: &mut [u8; 25192], words: &mut Words) {
    calls::fresh(image, words);
    for k in 0..10 {
        let row = calls::round_row(k);
        let _ = calls::made(image, words, row, (k + 1) as u8);
        let _ = call_step::run(image, words, row.stores);
    }
}

// The commit's first stores: the cut, the commit's answer and the run's, and what a recall shows then.
fn commit_and_run(image: &mut [u8; 25192], words: &mut Words, cut: usize) {
    let asked = call_commit::commit(image, words, 2, Until::Asked);
    let ran = call_step::run(image, words, cut);
    write_number(cut as u64, b",");
    write_number(shown::code(asked), b",");
    write_number(shown::code(ran), b"");
    show_lines(image);
}

// The round and its commit's first stores. Then power goes; what the mount finds is cut, too, and mounted again.
fn show_cut(image: &mut [u8; 25192], words: &mut Words, cut: usize) {
    play_round(image, words);
    commit_and_run(image, words, cut);
    mount_and_run(image, words, cut % 43 * 5 % 42);
    mount_and_run(image, words, 1000);
    io::write_all(1, b",");
    write_number(hashing::hash(image), b"\n");
}

pub fn show_cuts(image: &mut [u8; 25192], words: &mut Words) {
    for cut in 0..43 {
        show_cut(image, words, cut);
    }
}
