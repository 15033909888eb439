// Puts what is pending into a state in words.
#![tactic(auto)]

ghost use Rattle.std.specs.Prelude.{◌≡◌, true, false, [], ◌∷◌, ◌+◌, ◌≤◌, get_or, length};
ghost use Rattle.operations.specs.Operations.{is_idle};
ghost use Rattle.validity.specs.Validity.{state_ok};
ghost use Rattle.state_words.specs.Decoded.{decoded};
ghost use Rattle.state_pending.specs.Put.{eight, op_in, with_pending};

use state::{Op, Pending};
use state_words::Words;

// The numbers of an operation with five arguments, here a write's, or fewer.
fn written(code: u64, a: usize, b: usize, c: usize, d: usize, e: usize, made: u64) -> [u64; 8]
    ensures { result ≡ code ∷ a ∷ b ∷ c ∷ d ∷ e ∷ made ∷ 0 ∷ [] }
{
    [
        code, a as u64, b as u64, c as u64, d as u64, e as u64, made, 0,
    ]
}

// The numbers of what is pending.
fn op_words(op: Op, made: usize) -> [u64; 8]
    ensures op { op_in result ≡ op }
    ensures made { get_or result 6 0 ≡ made }
{
    let m = made as u64;
    match op {
        Op::Idle => [0, 0, 0, 0, 0, 0, m, 0],
        Op::Write {
            writer,
            page,
            line,
            offset,
            length,
        } => written(1, writer, page, line, offset, length, m),
        Op::Commit { writer } => [2, writer as u64, 0, 0, 0, 0, m, 0],
        Op::Consolidate { page } => [3, page as u64, 0, 0, 0, 0, m, 0],
        Op::Checkpoint => [4, 0, 0, 0, 0, 0, m, 0],
        Op::Event {
            kind,
            meter,
            amount,
        } => [5, kind as u64, meter as u64, amount, 0, 0, m, 0],
        Op::Prepare { writer } => [6, writer as u64, 0, 0, 0, 0, m, 0],
        Op::Confirm { writer } => [7, writer as u64, 0, 0, 0, 0, m, 0],
        Op::Log {
            page,
            line,
            offset,
            length,
        } => written(8, page, line, offset, length, 0, m),
        Op::Copy => [9, 0, 0, 0, 0, 0, m, 0],
        Op::Format => [10, 0, 0, 0, 0, 0, m, 0],
    }
}

// Puts eight words from word i on.
fn put_eight(words: &mut Words, i: usize, l: [u64; 8])
    requires { i + 8 ≤ 1280 }
    ensures words { words.new ≡ eight words.old i l }
    ensures long { length l ≡ 8 }
{
    words[i] = l[0];
    words[i + 1] = l[1];
    words[i + 2] = l[2];
    words[i + 3] = l[3];
    words[i + 4] = l[4];
    words[i + 5] = l[5];
    words[i + 6] = l[6];
    words[i + 7] = l[7];
}

// Puts what is pending, an operation. Nothing may be pending before it, and row 8 must accept the state with it: so no operation takes another's place.
pub fn put_pending(words: &mut Words, p: Pending)
    requires { (is_idle p.op ≡ false) × (is_idle (decoded words.old).pending.op ≡ true) × (state_ok (with_pending (decoded words.old) p) ≡ true) }
    ensures { decoded words.new ≡ with_pending (decoded words.old) p }
{
    let _ = state_words::all_words(*words);
    let op = p.op;
    let numbers = op_words(op, p.made);
    let line = p.line;
    let second = p.second;
    put_eight(words, state_words::PENDING, numbers);
    put_eight(words, state_words::LINE, line);
    put_eight(words, state_words::SECOND, second);
}
