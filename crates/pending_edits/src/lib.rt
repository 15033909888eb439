// O and Q: the pending operation, and a byte of its finished lines. Unlike `state_pending::put_pending`, O puts any numbers,
// over any that are there.
#![tactic(auto)]

ghost use Rattle.std.specs.Prelude.{◌≡◌, true, false, ◌+◌, ◌<◌, ◌≤◌, get_or, set, length};
ghost use Rattle.words.specs.Words.{le_of, bytes_of};
ghost use Rattle.operations.specs.Operations.{is_idle};
ghost use Rattle.state_words.specs.Decoded.{decoded};
ghost use Rattle.state_pending.specs.Put.{eight, op_in, with_pending};
ghost use Rattle.workbench.specs.Turns.{turn_at};
ghost use Rattle.pending_edits.specs.Edits.{pending_in, pending_of, pending_turn, with_byte, pending_set, line_byte_turn};

use state_words::{LINE, PENDING, SECOND, Words, parts};
use text::Line;
use workbench::finished::finished_lines;
use workbench::{Said, edited, numbers};

// Puts eight words from word i on.
fn put_eight(words: &mut Words, i: usize, l: [u64; 8])
    requires { i + 8 ≤ 1280 }
    ensures words { words.new ≡ eight words.old i l }
    ensures long { length l ≡ 8 }
{
    // One by one, as `eight` says it: of `copy_from_slice` the proof does not close.
    words[i] = l[0];
    words[i + 1] = l[1];
    words[i + 2] = l[2];
    words[i + 3] = l[3];
    words[i + 4] = l[4];
    words[i + 5] = l[5];
    words[i + 6] = l[6];
    words[i + 7] = l[7];
}

// Puts an operation by its eight numbers, its finished lines zeros.
fn put_numbers(words: &mut Words, n: [u64; 8])
    requires { is_idle (op_in n) ≡ false }
    ensures { decoded words.new ≡ with_pending (decoded words.old) (pending_in n) }
{
    let _ = state_words::all_words(*words);
    let none = [0u64; 8];
    put_eight(words, PENDING, n);
    put_eight(words, LINE, none);
    put_eight(words, SECOND, none);
}

// Puts the operation that a line describes.
fn put_described(words: &mut Words, line: Line)
    requires { get_or line.numbers 0 0 ≤ 10 }
    ensures { decoded words.new ≡ with_pending (decoded words.old) (pending_of line) }
{
    let n = line.numbers;
    let k = n[0];
    if k == 0 {
        state_words::put_nothing(words);
        return;
    }
    put_numbers(words, [k, n[1], n[2], n[3], n[4], n[5], n[6], 0]);
}

pub fn set_pending(words: &mut Words, line: Line) -> Option<Said>
    ensures { turn_at result words.new ≡ pending_turn (decoded words.old) line }
{
    let [kind, ..] = numbers::<7>(line)?;
    if kind > 10 {
        return None;
    }
    put_described(words, line);
    Some(edited())
}

// A word with its byte j set to v.
fn with_byte(word: u64, j: usize, v: u8) -> u64
    requires { j < 8 }
    ensures { result ≡ with_byte word j v }
{
    let mut bytes = word.to_le_bytes();
    bytes[j] = v;
    u64::from_le_bytes(bytes)
}

// Sets byte i of the finished lines, which stand one behind the other.
fn put_line_byte(words: &mut Words, i: usize, v: u8)
    requires { (i < 128) × (is_idle (decoded words.old).pending.op ≡ false) }
    ensures { decoded words.new
        ≡ with_pending (decoded words.old) (pending_set (decoded words.old).pending i v) }
{
    let k = LINE + i / 8;
    words[k] = with_byte(words[k], i % 8, v);
}

pub fn set_line_byte(words: &mut Words, line: Line) -> Option<Said>
    ensures { turn_at result words.new ≡ line_byte_turn (decoded words.old) line }
{
    let [i, v] = numbers::<2>(line)?;
    let i = i as usize;
    let v = u8::try_from(v).ok()?;
    let bytes = 64 * finished_lines(parts::op_in(words));
    if i >= bytes {
        return None;
    }
    put_line_byte(words, i, v);
    Some(edited())
}
