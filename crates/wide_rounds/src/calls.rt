// Calls as rows: the call, its writer, page and line, and the stores of the run that follows it. In the tables a row is a number: its decimal digits are, from
// the last, four for the stores, three for the line, one for the page, one for the writer, and then the call.
ghost use Rattle.std.specs.Prelude.{◌<◌};

use answers::Answer;
use call_write::Span;
use layout::Sizes;
use op_stores::Until;
use state_words::Words;

#[derive(Clone, Copy, Debug, PartialEq, Eq)]
pub struct Row {
    pub call: usize,
    pub writer: usize,
    pub page: usize,
    pub line: usize,
    pub stores: usize,
}

// Calls, by the first digits: 1 begin, 2 abort, 3 write, 4 commit, 5 consolidate, 6 checkpoint, 7 mount, 8 free a slot, 9 prepare, 10 confirm, 11 withdraw,
// 12 an event, whose kind is the page, 13 begin wide; 14 makes its writer the wide one, its page the number of entries in use and its line the first key.

// Pages 0 and 1 are slotted; then writer 2's wide round writes five lines on four pages.
const ROUND: [usize; 10] = [
    1_0_0_000_0000,
    3_0_0_000_1000,
    3_0_1_063_1000,
    4_0_0_000_1000,
    13_2_0_000_0000,
    3_2_0_000_1000,
    3_2_1_063_1000,
    3_2_2_003_1000,
    3_2_3_063_1000,
    3_2_0_001_1000,
];

// Rows of the list before the walk.
pub const ROWS: usize = 80;

const TABLE: [usize; ROWS] = [
    // No such writer; beside an open one.
    13_4_0_000_0000,
    1_0_0_000_0000,
    13_1_0_000_0000,
    13_0_0_000_0000,
    // Pages 0 and 1 are slotted, the journal has one place left.
    3_0_0_000_1000,
    3_0_1_063_1000,
    4_0_0_000_1000,
    // What is turned back beside a wide transaction.
    13_1_0_000_0000,
    1_0_0_000_0000,
    1_1_0_000_0000,
    1_4_0_000_0000,
    13_1_0_000_0000,
    9_1_0_000_0000,
    9_0_0_000_0000,
    9_4_0_000_0000,
    12_0_1_000_0000,
    12_0_9_000_0000,
    10_1_0_000_0000,
    11_1_0_000_0000,
    4_0_0_000_0000,
    2_0_0_000_0000,
    3_0_0_000_0000,
    // A page without a slot, a slotted one; a rewrite with another byte, one with the same, one that waits in the middle.
    3_1_2_003_1000,
    3_1_0_000_1000,
    3_1_2_003_1000,
    3_1_2_003_1000,
    3_1_2_003_0003,
    3_1_2_003_1000,
    // All five entries are used: a new line is turned back, an old one is not; no such page, no such line.
    3_1_3_000_1000,
    3_1_3_001_1000,
    3_1_3_003_1000,
    3_1_3_063_1000,
    3_1_3_003_1000,
    3_1_4_000_0000,
    3_1_0_064_0000,
    // A consolidation, a slot to free and a checkpoint go on beside it.
    5_0_0_000_1000,
    8_0_0_000_1000,
    6_0_0_000_1000,
    8_0_1_063_1000,
    // The commit, made in three parts.
    4_1_0_000_0001,
    1_0_2_003_0020,
    13_0_3_000_1000,
    // An abort; a commit of no lines; a mount in a transaction.
    13_3_0_000_0000,
    3_3_1_001_1000,
    2_3_1_001_0000,
    13_3_1_001_0000,
    4_3_0_000_0000,
    13_2_0_000_0000,
    3_2_1_001_1000,
    7_2_1_001_0000,
    // A cut before the first store of a commit; one after it; a cut in what the mount left.
    13_2_0_000_0000,
    3_2_1_001_1000,
    4_2_1_001_0000,
    7_2_1_001_0000,
    13_2_0_000_0000,
    3_2_1_001_1000,
    4_2_1_001_0001,
    7_2_1_001_0000,
    6_2_1_001_0003,
    7_2_1_001_0008,
    7_2_1_001_1000,
    // Row 8: a wide writer who is closed, with six entries, with an entry outside the pages, with a line twice.
    14_1_0_000_0000,
    1_0_0_000_0000,
    7_0_0_000_0000,
    13_1_0_000_0000,
    14_1_6_000_0000,
    2_1_0_000_0000,
    14_1_1_256_0000,
    2_1_0_000_0000,
    14_1_2_000_0000,
    2_1_0_000_0000,
    14_1_1_255_0000,
    3_1_3_063_0000,
    7_0_0_000_0000,
    // An event and a prepare as before, and no wide begin beside it.
    12_0_1_000_1000,
    1_3_0_000_0000,
    3_3_0_009_1000,
    9_3_0_009_1000,
    13_1_0_000_0000,
    10_3_0_009_1000,
];

// The walk's calls with their stores; writer, page and line are picked.
const WALK: [usize; 32] = [
    13_0_0_000_0000,
    13_0_0_000_0000,
    13_0_0_000_0000,
    13_0_0_000_0000,
    13_0_0_000_0000,
    1_0_0_000_0000,
    1_0_0_000_0000,
    2_0_0_000_0000,
    3_0_0_000_1000,
    3_0_0_000_1000,
    3_0_0_000_1000,
    3_0_0_000_1000,
    3_0_0_000_1000,
    3_0_0_000_1000,
    3_0_0_000_1000,
    3_0_0_000_1000,
    3_0_0_000_0000,
    3_0_0_000_0007,
    4_0_0_000_1000,
    4_0_0_000_1000,
    4_0_0_000_1000,
    4_0_0_000_0001,
    4_0_0_000_0009,
    5_0_0_000_1000,
    6_0_0_000_1000,
    7_0_0_000_0000,
    7_0_0_000_0005,
    8_0_0_000_1000,
    12_0_0_000_1000,
    9_0_0_000_1000,
    10_0_0_000_1000,
    11_0_0_000_0000,
];

const LINES: [usize; 4] = [0, 1, 3, 63];

fn row_of(row: usize) -> Row {
    Row {
        call: row / 1000000000,
        writer: row / 100000000 % 10,
        page: row / 10000000 % 10,
        line: row / 10000 % 1000,
        stores: row % 10000,
    }
}

pub fn round_row(k: usize) -> Row
    requires { k < 10 }
{
    row_of(ROUND[k])
}

// A hash of a place.
fn mixed(place: usize) -> usize {
    let x = place % 10000 * 1103515245 % 2147483647;
    (x ^ (x / 65536)) % 4294967296 * 48271 % 2147483647
}

// Takes a number of the walk apart: the call and its arguments, a digit each.
fn walk_row(x: usize) -> Row {
    Row {
        writer: x / 32 % 2,
        page: x / 64 % 4,
        line: LINES[x / 256 % 4],
        ..row_of(WALK[x % 32])
    }
}

// The row at a place of the list: of the table, then of the walk, picked by a hash of its place.
pub fn row_at(place: usize) -> Row {
    if place < ROWS {
        return row_of(TABLE[place]);
    }
    walk_row(mixed(place))
}

// A fresh store of 4 pages, 2 slots, 3 journal places and 5 entries.
pub fn fresh(image: &mut [u8], words: &mut Words) {
    let z = Sizes {
        pages: 4,
        slots: 2,
        places: 3,
        entries: 5,
    };
    let _ = call_mount::format_whole(image, words, z);
}

// Writes a byte to the start of the row's line.
fn write(image: &mut [u8], words: &mut Words, row: Row, byte: u8) -> Answer {
    let data = [byte; 1];
    let span = Span {
        page: row.page,
        line: row.line,
        offset: 0,
        length: 1,
    };
    call_write::write(image, words, row.writer, span, &data, Until::Asked)
}

// Replaces the wide transaction.
fn edit(words: &mut Words, row: Row) -> Answer {
    state_words::put_wide(words, row.writer, row.page);
    state_words::put_key(words, 0, row.line as u64);
    Ok(0)
}

fn event(image: &mut [u8], words: &mut Words, kind: usize) -> Answer {
    let moduli = meters::fixed_moduli();
    call_event::event(image, words, kind, 23, 1, &moduli, Until::Asked)
}

// Makes a call; a write writes the byte. An operation is asked for, its stores not yet made.
pub fn made(image: &mut [u8], words: &mut Words, row: Row, byte: u8) -> Answer {
    let asked = Until::Asked;
    match row.call {
        1 => call_begin::begin(words, row.writer),
        2 => call_begin::abort(words, row.writer),
        3 => write(image, words, row, byte),
        4 => call_commit::commit(image, words, row.writer, asked),
        5 => call_consolidate::consolidate(image, words, row.page, asked),
        6 => call_checkpoint::checkpoint(image, words, asked),
        7 => call_mount::mount(image, words),
        8 => call_consolidate::free_slot(image, words, asked),
        9 => call_prepare::prepare(image, words, row.writer, asked),
        10 => call_prepare::confirm(image, words, row.writer, asked),
        11 => call_prepare::withdraw(image, words, row.writer),
        12 => event(image, words, row.page),
        13 => call_begin::begin_wide(words, row.writer),
        _ => edit(words, row),
    }
}
