// Words at the first and the last place of a buffer and astride two others: 0, all ones and eight different bytes.
ghost use Rattle.std.specs.Prelude.{◌≤◌};

use crate::out;

// The place, the word that is read there, and every byte of the buffer.
fn show(at: usize, s: &[u8; 24])
    requires { at ≤ 16 }
{
    out::number(at as u64);
    out::number(words::word_at(s, at));
    out::three(
        words::word_at(s, 0),
        words::word_at(s, 8),
        words::word_at(s, 16),
    );
    out::end();
}

fn put(at: usize, v: u64)
    requires { at ≤ 16 }
{
    out::name(b"put");
    let mut s = [165u8; 24];
    words::put_word(&mut s, at, v);
    show(at, &s);
}

pub fn run() {
    put(0, 0);
    put(0, 18446744073709551615);
    put(0, 578437695752307201);
    put(16, 0);
    put(16, 18446744073709551615);
    put(16, 578437695752307201);
    put(9, 578437695752307201);
}
