// Sentences for sample arguments, whole and damaged.
use reasons::Reason;
use rows::Refusal;

const MOST: usize = usize::MAX;

// Writes a number after a mark.
fn write_number(mark: &[u8], v: usize) {
    io::write_all(1, mark);
    io::print_decimal(1, v as u64);
}

// Writes a text, in the next line what it reads back as, and an end.
pub fn write_both(text: &[u8], end: &[u8]) {
    io::write_all(1, text);
    match reason_reading::read_back(text) {
        Some(r) => {
            write_number(b"\n  call ", r.call);
            write_number(b", number ", r.number);
            write_number(b", writer ", r.writer);
            write_number(b", page ", r.page);
            write_number(b", line ", r.line);
            write_number(b", holder ", r.holder);
        }
        None => {
            io::write_all(1, b"\n  nothing");
        }
    }
    io::write_all(1, end);
}

// How many copies of a text, each with the lowest bit of one byte changed, read back as nothing.
fn count_nothing(text: &mut [u8]) -> usize {
    let mut count: usize = 0;
    for i in 0..text.len() {
        text[i] ^= 1;
        count += usize::from(reason_reading::read_back(text).is_none());
        text[i] ^= 1;
    }
    count
}

// Shows a sentence, with the number of its damaged copies and of those that read back as nothing. Says whether composing is turned back; a target
// that is a byte too short turns it back too, or nothing is shown.
fn show(reason: Reason) -> bool {
    let mut short = [b'~'; 199];
    let mut target = [b'~'; 200];
    if reasons::compose(reason, &mut short) != Err(Refusal::BadArgument) {
        return false;
    }
    let Ok(length) = reasons::compose(reason, &mut target) else {
        return true;
    };
    let text = &mut target[..length];
    write_both(text, b"; damaged ");
    write_number(b"", text.len());
    write_number(b", nothing ", count_nothing(text));
    io::write_all(1, b"\n");
    false
}

// The sentences of a call, for the smallest arguments, the largest that a call takes and the largest that fit a word, and how many numbers below
// 33 are turned back.
pub fn show_call(call: usize) {
    let mut none: usize = 0;
    for number in 0..33 {
        none += usize::from(show(Reason {
            call,
            number,
            writer: 0,
            page: 0,
            line: 0,
            holder: 0,
        }));
        show(Reason {
            call,
            number,
            writer: 3,
            page: 1023,
            line: 63,
            holder: 2,
        });
        show(Reason {
            call,
            number,
            writer: MOST,
            page: MOST,
            line: MOST,
            holder: MOST,
        });
    }
    write_number(b"call ", call);
    write_number(b": turned back ", none);
    io::write_all(1, b"\n");
}
