// Refusals that a store gives: what the call met, as a sentence.
use answers::Answer;
use call_write::Span;
use layout::Sizes;
use op_stores::Until;
use reasons::Reason;
use state_words::{WORD_COUNT, Words};

// A call with its writer, page and line; an event with its kind, meter and amount.
#[derive(Clone, Copy)]
struct Row {
    call: usize,
    writer: usize,
    page: usize,
    line: usize,
}

// Calls with their writers, pages and lines.
// Writers 3 and 1 hold lines 5 and 6 of page 1; then 0 and 3 want line 6, and 0 line 5 and another page, and pages 1 and 0 are to be consolidated and a
// slot freed. Then come an unknown event and bets: writer 1 is open, there is no slot, writer 0 holds credit's line and 2 the bet's, 2 the bet's alone;
// then there is no credit to cash out, and of two counts the second has no room. Then writer 0, who holds nothing, is prepared: what others and it may
// not do then; and writer 2's records have no room. A wide begin finds no entries. Format gives one: beside an open writer, and with writer 4, a wide
// begin is turned back; then writer 1's is taken, and another begin, an event, a prepare, a confirm, a second line and another's write are not.
const CALLS: [(usize, usize, usize, usize); 55] = [
    (wording::BEGIN, 3, 0, 0),
    (wording::BEGIN, 1, 0, 0),
    (wording::BEGIN, 0, 0, 0),
    (wording::WRITE, 3, 1, 5),
    (wording::WRITE, 1, 1, 6),
    (wording::WRITE, 0, 1, 6),
    (wording::WRITE, 3, 1, 6),
    (wording::WRITE, 0, 1, 5),
    (wording::WRITE, 0, 0, 5),
    (wording::WRITE, 2, 1, 7),
    (wording::WRITE, 0, 2, 64),
    (wording::CONSOLIDATE, 0, 1, 0),
    (wording::CONSOLIDATE, 0, 0, 0),
    (wording::FREE_SLOT, 0, 0, 0),
    (wording::EVENT, 6, 0, 1),
    (wording::EVENT, 3, 0, 1),
    (wording::ABORT, 1, 0, 0),
    (wording::ABORT, 3, 0, 0),
    (wording::EVENT, 3, 0, 1),
    (wording::CONSOLIDATE, 0, 1, 0),
    (wording::BEGIN, 2, 0, 0),
    (wording::WRITE, 2, 0, 3),
    (wording::WRITE, 0, 0, 0),
    (wording::EVENT, 3, 0, 1),
    (wording::ABORT, 0, 0, 0),
    (wording::EVENT, 3, 0, 1),
    (wording::EVENT, 2, 0, 1),
    (wording::EVENT, 5, 5, 1),
    (wording::EVENT, 5, 5, 1),
    (wording::BEGIN, 0, 0, 0),
    (wording::PREPARE, 0, 0, 0),
    (wording::PREPARE, 2, 0, 0),
    (wording::ABORT, 0, 0, 0),
    (wording::WRITE, 0, 0, 9),
    (wording::CONSOLIDATE, 0, 0, 0),
    (wording::FREE_SLOT, 0, 0, 0),
    (wording::EVENT, 5, 5, 1),
    (wording::CONFIRM, 2, 0, 0),
    (wording::WITHDRAW, 2, 0, 0),
    (wording::WITHDRAW, 0, 0, 0),
    (wording::PREPARE, 2, 0, 0),
    (wording::BEGIN_WIDE, 0, 0, 0),
    (wording::FORMAT, 1, 0, 0),
    (wording::BEGIN, 0, 0, 0),
    (wording::BEGIN_WIDE, 1, 0, 0),
    (wording::ABORT, 0, 0, 0),
    (wording::BEGIN_WIDE, 4, 0, 0),
    (wording::BEGIN_WIDE, 1, 0, 0),
    (wording::BEGIN, 0, 0, 0),
    (wording::EVENT, 3, 0, 1),
    (wording::PREPARE, 1, 0, 0),
    (wording::CONFIRM, 1, 0, 0),
    (wording::WRITE, 1, 0, 5),
    (wording::WRITE, 1, 1, 5),
    (wording::WRITE, 0, 1, 5),
];

// Writes a byte to the start of the row's line.
fn write(image: &mut [u8], words: &mut Words, row: Row) -> Answer {
    let span = Span {
        page: row.page,
        line: row.line,
        offset: 0,
        length: 1,
    };
    call_write::write(image, words, row.writer, span, b"x", Until::End)
}

fn event(image: &mut [u8], words: &mut Words, row: Row) -> Answer {
    let moduli = meters::fixed_moduli();
    call_event::event(
        image,
        words,
        row.writer,
        row.page,
        row.line as u64,
        &moduli,
        Until::End,
    )
}

// Makes a call, and all its stores.
fn make(image: &mut [u8], words: &mut Words, row: Row) -> Answer {
    let end = Until::End;
    let call = row.call;
    match call {
        wording::BEGIN => call_begin::begin(words, row.writer),
        wording::BEGIN_WIDE => call_begin::begin_wide(words, row.writer),
        wording::ABORT => call_begin::abort(words, row.writer),
        wording::WRITE => write(image, words, row),
        wording::CONSOLIDATE => call_consolidate::consolidate(image, words, row.page, end),
        wording::EVENT => event(image, words, row),
        wording::PREPARE => call_prepare::prepare(image, words, row.writer, end),
        wording::CONFIRM => call_prepare::confirm(image, words, row.writer, end),
        wording::WITHDRAW => call_prepare::withdraw(image, words, row.writer),
        _ => call_consolidate::free_slot(image, words, end),
    }
}

// What a call met that was turned back with a number.
fn met(words: &Words, number: usize, row: Row) -> Reason {
    refusals::reason_met(
        words, row.call, number, row.writer, row.page, row.line, row.writer, row.page,
    )
}

// Writes the sentence of a call that was refused.
fn tell(words: &Words, answer: Answer, row: Row) {
    let mut target = [0; 200];
    let number = answers::number_of(answer);
    let reason = met(words, number, row);
    let Ok(length) = reasons::compose(reason, &mut target) else {
        return;
    };
    crate::samples::write_both(&target[..length], b"\n");
}

fn fresh(image: &mut [u8], words: &mut Words, entries: usize) {
    let z = Sizes {
        pages: 2,
        slots: 1,
        places: 2,
        entries,
    };
    let _ = call_mount::format_whole(image, words, z);
}

// Makes a call with all its stores, and tells why it was refused. A format starts anew with so many entries.
fn turn(image: &mut [u8; 12552], words: &mut Words, row: Row) {
    if row.call == wording::FORMAT {
        fresh(image, words, row.writer);
        return;
    }
    let answer = make(image, words, row);
    tell(words, answer, row);
}

// The calls one after the other.
pub fn show_met() {
    let mut image = [0u8; 12552];
    let mut words = [0u64; WORD_COUNT];
    fresh(&mut image, &mut words, 0);
    for &(call, writer, page, line) in &CALLS {
        let row = Row {
            call,
            writer,
            page,
            line,
        };
        turn(&mut image, &mut words, row);
    }
}
