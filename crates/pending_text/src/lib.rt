// The numbers of the pending operation, each after a blank.
#![tactic(auto)]

ghost use Rattle.std.specs.Prelude.{◌≡◌, [], ◌∷◌, ◌+◌, ◌<◌, ◌≤◌, length};
ghost use Rattle.words.specs.Words.{bytes_of};
ghost use Rattle.number_text.specs.Text.{Put, blanked};
ghost use Rattle.state_words.specs.Decoded.{decoded};
ghost use Rattle.pending_text.specs.Numbers.{op_numbers, line_numbers, finished_numbers, pending_numbers};

use state::Op;
use state_words::{Words, parts};
use workbench::finished;

// The numbers of a write, and of a wide one.
fn written(code: u64, a: usize, b: usize, c: usize, d: usize, e: usize, made: u64) -> [u64; 7]
    ensures { result ≡ code ∷ a ∷ b ∷ c ∷ d ∷ e ∷ made ∷ [] }
{
    [code, a as u64, b as u64, c as u64, d as u64, e as u64, made]
}

// The numbers of an operation, and how many of its stores are made.
fn op_numbers(op: Op, made: usize) -> [u64; 7]
    ensures { result ≡ op_numbers op made }
{
    let m = made as u64;
    match op {
        Op::Idle => [0; 7],
        Op::Write {
            writer,
            page,
            line,
            offset,
            length,
        } => written(1, writer, page, line, offset, length, m),
        Op::Commit { writer } => [2, writer as u64, 0, 0, 0, 0, m],
        Op::Consolidate { page } => [3, page as u64, 0, 0, 0, 0, m],
        Op::Checkpoint => [4, 0, 0, 0, 0, 0, m],
        Op::Event {
            kind,
            meter,
            amount,
        } => [5, kind as u64, meter as u64, amount, 0, 0, m],
        Op::Prepare { writer } => [6, writer as u64, 0, 0, 0, 0, m],
        Op::Confirm { writer } => [7, writer as u64, 0, 0, 0, 0, m],
        Op::Log {
            page,
            line,
            offset,
            length,
        } => written(8, page, line, offset, length, 0, m),
        Op::Copy => [9, 0, 0, 0, 0, 0, m],
        Op::Format => [10, 0, 0, 0, 0, 0, m],
    }
}

// The bytes of a word, the lowest first.
fn byte_numbers(v: u64) -> [u64; 8]
    ensures { result ≡ bytes_of 8 v }
{
    v.to_le_bytes().map(u64::from)
}

// The 64 bytes of a line of words.
fn put_line(out: &mut [u8], at: usize, line: [u64; 8]) -> usize
    requires { at + 1344 ≤ length out.old }
    ensures { Put out.old at (blanked (line_numbers line)) out.new result }
{
    let mut next = at;
    for word in line {
        let bytes = byte_numbers(word);
        next = number_text::put_numbers(out, next, &bytes);
    }
    next
}

// The bytes of n finished lines.
fn put_finished(out: &mut [u8], at: usize, n: usize, line: [u64; 8], second: [u64; 8]) -> usize
    requires { at + 2688 ≤ length out.old }
    ensures { Put out.old at (blanked (finished_numbers n line second)) out.new result }
{
    if n == 0 {
        return at;
    }
    let next = put_line(out, at, line);
    if n == 1 {
        return next;
    }
    put_line(out, next, second)
}

// The pending operation of a state in words, at most 135 numbers: seven zeros where there is none.
pub fn put_pending(out: &mut [u8], at: usize, words: &Words) -> usize
    requires { at + 2835 ≤ length out.old }
    ensures { Put out.old at (blanked (pending_numbers (decoded words.now).pending)) out.new result }
{
    if parts::idle_in(words) {
        return number_text::put_numbers(out, at, &[0; 7]);
    }
    let op = parts::op_in(words);
    let numbers = op_numbers(op, parts::made_in(words));
    let next = number_text::put_numbers(out, at, &numbers);
    let line = parts::line_in(words);
    let second = parts::second_in(words);
    put_finished(out, next, finished::finished_lines(op), line, second)
}
