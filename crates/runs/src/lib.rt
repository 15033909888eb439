// Runs of words: one value in each, a copy, the eight of a line.
#![tactic(auto)]

ghost use Rattle.std.specs.Prelude.{◌≡◌, ◌+◌, ◌*◌, ◌≤◌, length, replicate};
ghost use Rattle.words.specs.Words.{word, put_words, words_at, part, over};

// Puts v as each of the n words from byte at on.
pub fn fill_words(s: &mut [u8], at: usize, n: usize, v: u64)
    requires { at + 8 * n ≤ length s.old }
    ensures { s.new ≡ put_words s.old at (replicate n v) }
{
    for i in 0..n {
        words::put_word(s, at + 8 * i, v);
    }
}

// Copies n words from byte from of src to byte to of dst.
pub fn copy_words(src: &[u8], from: usize, dst: &mut [u8], to: usize, n: usize)
    requires { (from + 8 * n ≤ length src.now) × (to + 8 * n ≤ length dst.old) }
    ensures { dst.new ≡ over dst.old to (part src.now from (8 * n)) }
{
    for i in 0..n {
        let v = words::word_at(src, from + 8 * i);
        words::put_word(dst, to + 8 * i, v);
    }
}

// The 8 words of a line. Of `array::from_fn` the proof did not close: its items stand under pairs that no rule of the search takes apart.
pub fn words_of(line: &[u8]) -> [u64; 8]
    requires { length line.now ≡ 64 }
    ensures { result ≡ words_at line.now 0 8 }
{
    [
        words::word_at(line, 0),
        words::word_at(line, 8),
        words::word_at(line, 16),
        words::word_at(line, 24),
        words::word_at(line, 32),
        words::word_at(line, 40),
        words::word_at(line, 48),
        words::word_at(line, 56),
    ]
}
