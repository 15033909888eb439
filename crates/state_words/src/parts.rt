// What is pending, part by part; and a copy of the bitmaps.
ghost use Rattle.std.specs.Prelude.{◌≡◌, false, ◌+◌, ◌≤◌, take, drop};
ghost use Rattle.operations.specs.Operations.{is_idle};
ghost use Rattle.state_words.specs.Decoded.{decoded, op_by, with_made};

use crate::{BITMAP, LINE, PENDING, SECOND, Words};
use state::Op;

// Whether nothing is pending.
pub fn idle_in(words: &Words) -> bool
    ensures { result ≡ is_idle (decoded words.now).pending.op }
{
    let k = words[PENDING];
    (k == 0) | (10 < k)
}

// The operation by its number.
fn op_by(k: usize, a: usize, b: usize, c: usize, d: usize, e: usize) -> Op
    ensures { result ≡ op_by k a b c d e }
{
    match k {
        1 => Op::Write {
            writer: a,
            page: b,
            line: c,
            offset: d,
            length: e,
        },
        2 => Op::Commit { writer: a },
        3 => Op::Consolidate { page: a },
        4 => Op::Checkpoint,
        5 => Op::Event {
            kind: a,
            meter: b,
            amount: c as u64,
        },
        6 => Op::Prepare { writer: a },
        7 => Op::Confirm { writer: a },
        8 => Op::Log {
            page: a,
            line: b,
            offset: c,
            length: d,
        },
        9 => Op::Copy,
        10 => Op::Format,
        _ => Op::Idle,
    }
}

// The operation that is pending.
pub fn op_in(words: &Words) -> Op
    ensures { result ≡ (decoded words.now).pending.op }
{
    op_by(
        words[PENDING] as usize,
        words[PENDING + 1] as usize,
        words[PENDING + 2] as usize,
        words[PENDING + 3] as usize,
        words[PENDING + 4] as usize,
        words[PENDING + 5] as usize,
    )
}

// How many of its stores are made.
pub fn made_in(words: &Words) -> usize
    requires { is_idle (decoded words.now).pending.op ≡ false }
    ensures { result ≡ (decoded words.now).pending.made }
{
    words[PENDING + 6] as usize
}

// Sets how many of its stores are made.
pub fn put_made(words: &mut Words, made: usize)
    requires { is_idle (decoded words.old).pending.op ≡ false }
    ensures { decoded words.new ≡ with_made (decoded words.old) made }
{
    let _ = crate::all_words(*words);
    words[PENDING + 6] = made as u64;
}

// The N words from word a on.
fn words_at<const N: usize>(words: &Words, a: usize) -> [u64; N]
    requires { a + N ≤ 1280 }
    ensures { result ≡ take N (drop a words.now) }
{
    let mut part = [0u64; N];
    part.copy_from_slice(&words[a..a + N]);
    part
}

// Its finished line.
pub fn line_in(words: &Words) -> [u64; 8]
    requires { is_idle (decoded words.now).pending.op ≡ false }
    ensures { result ≡ (decoded words.now).pending.line }
{
    words_at(words, LINE)
}

// Its second finished line.
pub fn second_in(words: &Words) -> [u64; 8]
    requires { is_idle (decoded words.now).pending.op ≡ false }
    ensures { result ≡ (decoded words.now).pending.second }
{
    words_at(words, SECOND)
}

// The bitmaps of the slots.
pub fn bitmaps_in(words: &Words) -> [u64; 16]
    ensures { result ≡ (decoded words.now).table.bitmap }
{
    words_at(words, BITMAP)
}
