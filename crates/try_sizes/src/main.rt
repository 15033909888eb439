// Program try_sizes: a setting `P,S,J` and rounds as lines of standard input; the rounds done and abandoned and the stores by what they were
// for as one line of standard output (request L11). What a line does is trial_lines'. Here the input is cut into lines.
#![tactic(auto)]

ghost use Rattle.std.specs.Prelude.{◌≡◌, List, [], ◌∷◌, ℕ, ◌≤◌, length, replicate};
ghost use Rattle.try_sizes.specs.Program.{nothing_read, reads_on, Shows, Takes, Reads, TakesSome, Closes, Responds};

use state_words::{WORD_COUNT, Words};
use std::io::{Read, Stdin};
use trial_lines::{Session, output};

// The program between two bytes.
#[derive(Clone, Copy)]
struct Reading {
    session: Session,
    // bytes in the line buffer: a letter, a comma, and a line that is not at its end
    kept: usize,
    // whether there may be more to read (as None of a read's Reading this would not say that the bytes of a short read are taken)
    more: bool,
}

// No byte is read yet, and the words are 0.
fn begin(line: &mut [u8]) -> Reading
    requires { length line.old ≡ 1024 }
    ensures fits { result.kept ≤ 1024 }
    ensures shows { (image : List ℕ) → Shows result (replicate 1280 0) image line.new (nothing_read image) }
{
    line[0] = b'R';
    line[1] = b',';
    let session = trial_lines::start();
    Reading {
        session,
        kept: 2,
        more: true,
    }
}

// One byte. A line that fills the buffer is too long to be of any right form.
fn take_byte(s: Reading, image: &mut [u8], words: &mut Words, line: &mut [u8], b: u8) -> Reading
    requires kept_bound { s.kept ≤ 1024 }
    requires line_len { length line.old ≡ 1024 }
    ensures { Takes s words.old image.old line.old (b ∷ [])
        result words.new image.new line.new }
{
    let mut next = s;
    let kept = s.kept;
    if b == b'\n' {
        next.session = trial_lines::take_line(s.session, image, words, &line[..kept]);
        next.kept = 2;
        return next;
    }
    if kept >= 1024 {
        return next;
    }
    line[kept] = b;
    next.kept = kept + 1;
    next
}

// The bytes of a piece.
fn take_piece(
    s: Reading,
    image: &mut [u8],
    words: &mut Words,
    line: &mut [u8],
    piece: &[u8],
) -> Reading
    requires kept_bound { s.kept ≤ 1024 }
    requires line_len { length line.old ≡ 1024 }
    ensures { Takes s words.old image.old line.old piece.now
        result words.new image.new line.new }
{
    let mut s = s;
    for &b in piece {
        s = take_byte(s, image, words, line, b);
    }
    s
}

// Whether a line more would be read: none is after a refused setting, nor past the last round.
fn reads_on(lines: usize, set: bool) -> bool
    ensures { result ≡ reads_on lines set }
{
    (lines == 0) | set & (lines <= 1000)
}

// Reads once into `input`, and gives how many bytes that put at its start: none at the end, or where the read fails.
fn read_some(stdin: &mut Stdin, input: &mut [u8]) -> usize
    ensures { result ≤ length input.new }
{
    stdin.read(input).unwrap_or(0)
}

// Reads a piece of the input and takes its bytes.
fn read_piece(
    stdin: &mut Stdin,
    s: Reading,
    image: &mut [u8],
    words: &mut Words,
    line: &mut [u8],
    input: &mut [u8],
) -> Reading
    requires kept_bound { s.kept ≤ 1024 }
    requires line_len { length line.old ≡ 1024 }
    ensures { Reads s words.old image.old line.old input.new
        result words.new image.new line.new }
{
    let n = read_some(stdin, input);
    let mut next = take_piece(s, image, words, line, &input[..n]);
    let session = next.session;
    next.more = (n > 0) & reads_on(session.lines, session.set);
    next
}

// Reads on, to the end of the input or past the last round. A proved loop has to end, so this one
// counts its turns, up to a number that no run reaches.
fn read_all(
    stdin: &mut Stdin,
    s: Reading,
    image: &mut [u8],
    words: &mut Words,
    line: &mut [u8],
    input: &mut [u8],
) -> Reading
    requires kept_bound { s.kept ≤ 1024 }
    requires line_len { length line.old ≡ 1024 }
    ensures { TakesSome s words.old image.old line.old result words.new image.new line.new }
{
    let mut s = s;
    for _turn in 0..u64::MAX {
        if !s.more {
            break;
        }
        s = read_piece(stdin, s, image, words, line, input);
    }
    s
}

// Takes a last line that no newline ends.
fn take_last(s: Reading, image: &mut [u8], words: &mut Words, line: &[u8]) -> Session
    requires kept_bound { s.kept ≤ 1024 }
    requires line_len { length line.now ≡ 1024 }
    ensures { Closes s words.old image.old line.now result words.new image.new }
{
    let kept = s.kept;
    let session = s.session;
    if kept <= 2 {
        return session;
    }
    trial_lines::take_line(session, image, words, &line[..kept])
}

// Takes the whole input, puts the response at the start of a buffer and says how long it is.
fn respond(
    stdin: &mut Stdin,
    image: &mut [u8],
    line: &mut [u8],
    input: &mut [u8],
    out: &mut [u8],
) -> usize
    requires line_len { length line.old ≡ 1024 }
    requires in_bounds { 126 ≤ length out.old }
    ensures { Responds image.old out.old out.new result }
{
    let mut words = [0u64; WORD_COUNT];
    let first = begin(line);
    let read = read_all(stdin, first, image, &mut words, line, input);
    let last = take_last(read, image, &mut words, line);
    output::put_response(out, last)
}

fn main(rt: HostRuntime) {
    let mut stdin = rt.stdin();
    let mut image = io::large_buffer();
    let mut line = [0u8; 1024];
    let mut input = io::large_buffer();
    let mut out = [0u8; 126];
    let n = respond(&mut stdin, &mut image, &mut line, &mut input, &mut out);
    if n <= 126 {
        io::write_all(1, &out[..n]);
    }
}
