// Calls as numbers. Their decimal digits are, from the last: four for the stores of the run that follows, two for the last line, two for the
// first, one for the page, one for the writer, two for the call, and then the calls of the list so far.
use answers::Answer;
use call_write::Span;
use op_stores::Until;
use state_words::Words;

// Calls, by the first digits: 1 begin, 2 abort, 3 write, 4 commit, 5 consolidate, 6 checkpoint, 7 mount, 8 free a slot, 9 the same in a buffer
// that is a byte too short, 10 an edit of the state, 11 prepare, 12 confirm, 13 withdraw.
const TABLE: [usize; 102] = [
    // No slot is taken.
    8_0_0_00_00_1000,
    // The only taken slot is held.
    1_0_0_00_00_0000,
    3_0_3_00_00_1000,
    8_0_0_00_00_1000,
    // It is committed, with one line; then pending; then free.
    4_0_0_00_00_1000,
    8_0_0_00_00_0000,
    8_0_0_00_00_1000,
    8_0_0_00_00_1000,
    // Bitmaps with 33, 32, 63 and 1 ones: two slots tie with one line to copy, and then the journal is full.
    6_0_0_00_00_1000,
    1_0_0_00_00_0000,
    3_0_0_00_32_1000,
    3_0_1_00_31_1000,
    3_0_2_00_62_1000,
    3_0_3_00_00_1000,
    4_0_0_00_00_1000,
    8_0_0_00_00_1000,
    8_0_0_00_00_1000,
    8_0_0_00_00_1000,
    // Of the slots left one needs 31 lines and one 32; then none is taken.
    6_0_0_00_00_1000,
    8_0_0_00_00_1000,
    8_0_0_00_00_1000,
    8_0_0_00_00_1000,
    // Bitmaps with 64 ones and, of a slot whose writer aborted, with none.
    6_0_0_00_00_1000,
    1_0_0_00_00_0000,
    3_0_4_00_63_1000,
    4_0_0_00_00_1000,
    1_1_0_00_00_0000,
    3_1_5_00_00_1000,
    2_1_0_00_00_0000,
    8_0_0_00_00_1000,
    8_0_0_00_00_1000,
    // A held slot with two lines is skipped for one with three.
    6_0_0_00_00_1000,
    1_0_0_00_00_0000,
    3_0_0_00_01_1000,
    3_0_1_00_02_1000,
    4_0_0_00_00_1000,
    1_2_0_00_00_0000,
    3_2_0_00_00_1000,
    8_0_0_00_00_0000,
    // A cut before the first store, and it is not held; then one before the last store but one.
    7_0_0_00_00_0000,
    8_0_0_00_00_0020,
    7_0_0_00_00_0000,
    8_0_0_00_00_0000,
    7_0_0_00_00_0000,
    // All taken slots are held and the journal is full: 22 comes before 19.
    1_0_0_00_00_0000,
    3_0_0_00_00_1000,
    4_0_0_00_00_1000,
    1_0_0_00_00_0000,
    3_0_0_00_00_1000,
    4_0_0_00_00_1000,
    1_0_0_00_00_0000,
    3_0_0_00_00_1000,
    4_0_0_00_00_1000,
    1_0_0_00_00_0000,
    3_0_0_00_00_1000,
    4_0_0_00_00_1000,
    1_3_0_00_00_0000,
    3_3_0_00_00_1000,
    3_3_1_00_00_1000,
    8_0_0_00_00_1000,
    // The journal is full; and the buffer is short.
    2_3_0_00_00_0000,
    8_0_0_00_00_1000,
    9_0_0_00_00_0000,
    // The next slot to try is 4, of 4; and the buffer is short.
    10_0_4_04_04_0000,
    8_0_0_00_00_0000,
    9_0_0_00_00_0000,
    7_0_0_00_00_0000,
    // 17 slots.
    10_0_0_17_17_0000,
    8_0_0_00_00_0000,
    7_0_0_00_00_0000,
    // A transaction is prepared: a slot to free, another's prepare and commit, its own abort, write and commit, a consolidation, and a confirm and a
    // withdraw by another writer; another's write and a checkpoint are taken.
    6_0_0_00_00_1000,
    1_0_0_00_00_0000,
    3_0_0_00_01_1000,
    1_1_0_00_00_0000,
    11_0_0_00_00_1000,
    8_0_0_00_00_1000,
    11_1_0_00_00_1000,
    4_1_0_00_00_1000,
    2_0_0_00_00_0000,
    3_0_1_00_00_1000,
    4_0_0_00_00_1000,
    5_0_0_00_00_1000,
    12_1_0_00_00_1000,
    13_1_0_00_00_0000,
    3_1_1_00_00_1000,
    6_0_0_00_00_1000,
    // A cut before confirm's store; one before prepare's last.
    12_0_0_00_00_0000,
    7_0_0_00_00_0000,
    1_0_0_00_00_0000,
    3_0_0_00_00_1000,
    11_0_0_00_00_0003,
    7_0_0_00_00_0000,
    // Withdrawn, prepared again with a slot more, confirmed; then an empty one.
    1_0_0_00_00_0000,
    3_0_0_00_00_1000,
    11_0_0_00_00_1000,
    13_0_0_00_00_0000,
    3_0_1_00_00_1000,
    11_0_0_00_00_1000,
    12_0_0_00_00_1000,
    1_2_0_00_00_0000,
    11_2_0_00_00_1000,
    12_2_0_00_00_1000,
];

// The walk's calls; writer, page and line are added.
const WALK: [usize; 32] = [
    1_0_0_00_00_0000,
    1_0_0_00_00_0000,
    1_0_0_00_00_0000,
    1_0_0_00_00_0000,
    1_0_0_00_00_0000,
    2_0_0_00_00_0000,
    3_0_0_00_00_1000,
    3_0_0_00_00_1000,
    3_0_0_00_00_1000,
    3_0_0_00_00_1000,
    3_0_0_00_00_1000,
    3_0_0_00_00_1000,
    3_0_0_00_00_1000,
    3_0_0_00_00_1000,
    3_0_0_00_00_1000,
    3_0_0_00_00_1000,
    11_0_0_00_00_1000,
    12_0_0_00_00_1000,
    13_0_0_00_00_0000,
    3_0_0_00_00_0000,
    3_0_0_00_00_0007,
    3_0_0_00_00_0009,
    4_0_0_00_00_1000,
    4_0_0_00_00_1000,
    4_0_0_00_00_1000,
    4_0_0_00_00_1000,
    4_0_0_00_00_0004,
    5_0_0_00_00_1000,
    6_0_0_00_00_1000,
    7_0_0_00_00_0000,
    8_0_0_00_00_1000,
    8_0_0_00_00_0009,
];

// The call after another: the same for the next line, or the next of the table, or one of the walk, picked by a hash of its place.
pub fn following(call: usize) -> usize {
    if call / 1000000 % 100 < call / 10000 % 100 {
        return call % 100000000000000000 + 1000000;
    }
    let at = call / 1000000000000 % 10000;
    let so_far = (at + 1) * 1000000000000;
    if at < 102 {
        return so_far + TABLE[at] % 1000000000000;
    }
    let x = at * 1103515245 % 2147483647;
    let x = (x ^ (x / 65536)) % 4294967296 * 48271 % 2147483647;
    so_far
        + WALK[x % 32] % 1000000000000
        + x / 32 % 2 * 1000000000
        + x / 64 % 6 * 100000000
        + x / 384 % 64 * 1010000
}

// The write of a byte to the start of a line.
fn write(
    image: &mut [u8],
    words: &mut Words,
    writer: usize,
    page: usize,
    line: usize,
    byte: u8,
) -> Answer {
    let data = [byte; 1];
    let span = Span {
        page,
        line,
        offset: 0,
        length: 1,
    };
    call_write::write(image, words, writer, span, &data, Until::Asked)
}

// Frees a slot in a buffer that is a byte too short.
fn free_in_short(words: &mut Words) -> Answer {
    let mut short = [0u8; 41407];
    call_consolidate::free_slot(&mut short, words, Until::Asked)
}

// An edit sets the next slot to try and the number of slots.
fn edit(words: &mut Words, next: usize, slots: usize) -> Answer {
    words[state_words::NEXT] = next as u64;
    words[state_words::SIZES + 1] = slots as u64;
    Ok(0)
}

// Makes a call, its stores not yet made.
pub fn made(image: &mut [u8], words: &mut Words, call: usize) -> Answer {
    let writer = call / 1000000000 % 10;
    let page = call / 100000000 % 10;
    let line = call / 1000000 % 100;
    let byte = (call / 1000000 % 251) as u8;
    match call / 10000000000 % 100 {
        1 => call_begin::begin(words, writer),
        2 => call_begin::abort(words, writer),
        3 => write(image, words, writer, page, line, byte),
        4 => call_commit::commit(image, words, writer, Until::Asked),
        5 => call_consolidate::consolidate(image, words, page, Until::Asked),
        6 => call_checkpoint::checkpoint(image, words, Until::Asked),
        7 => call_mount::mount(image, words),
        8 => call_consolidate::free_slot(image, words, Until::Asked),
        9 => free_in_short(words),
        11 => call_prepare::prepare(image, words, writer, Until::Asked),
        12 => call_prepare::confirm(image, words, writer, Until::Asked),
        13 => call_prepare::withdraw(image, words, writer),
        _ => edit(words, page, line),
    }
}
