// Program wear_by_frame: inputs of powerhit, parted by lines `=`, as standard input; over all of them the line copies of each frame and the
// stores by where they went as 22 lines of standard output (request L12). What a line does is wear_lines'. Here the input is cut into lines.
#![tactic(auto)]

ghost use Rattle.std.specs.Prelude.{◌≡◌, List, [], ◌∷◌, ℕ, ◌≤◌, length, replicate};
ghost use Rattle.wear_by_frame.specs.Program.{nothing_read, Shows, Sound, Takes, Reads, TakesSome, Closes, Responds};

use executing::Mode;
use state_words::Words;
use std::io::{Read, Stdin};
use wear_lines::output;

// The program between two bytes.
#[derive(Clone, Copy)]
struct Reading {
    mode: Mode,
    // bytes in the line buffer, of a line that is not at its end
    kept: usize,
    // whether there may be more to read (as None of a read's Reading this would not say that the bytes of a short read are taken)
    more: bool,
}

// No byte is read yet.
fn begin(image: &mut [u8], words: &mut Words) -> Reading
    ensures sound { Sound result words.new }
    ensures shows { (line : List ℕ)
        → Shows result words.new image.new (replicate 22 0) line (nothing_read (length image.old)) }
{
    let mode = wear_lines::open_input(image, words);
    Reading {
        mode,
        kept: 0,
        more: true,
    }
}

// One byte. A line that fills the buffer is too long to be of any right form.
fn take_byte(
    s: Reading,
    image: &mut [u8],
    words: &mut Words,
    counts: &mut [u64],
    line: &mut [u8],
    b: u8,
) -> Reading
    requires sound { Sound s words.old }
    requires counts_len { (length counts.old ≡ 22) × (length line.old ≡ 1024) }
    ensures { Takes s words.old image.old counts.old line.old (b ∷ [])
        result words.new image.new counts.new line.new }
{
    let mut next = s;
    let kept = s.kept;
    if b == b'\n' {
        let mode = s.mode;
        next.mode = wear_lines::take_line(image, words, mode, counts, &line[..kept]);
        next.kept = 0;
        return next;
    }
    if kept >= 1024 {
        return next;
    }
    line[kept] = b;
    next.kept = kept + 1;
    next
}

// The bytes of a piece.
fn take_piece(
    s: Reading,
    image: &mut [u8],
    words: &mut Words,
    counts: &mut [u64],
    line: &mut [u8],
    piece: &[u8],
) -> Reading
    requires sound { Sound s words.old }
    requires counts_len { (length counts.old ≡ 22) × (length line.old ≡ 1024) }
    ensures { Takes s words.old image.old counts.old line.old piece.now
        result words.new image.new counts.new line.new }
{
    let mut s = s;
    for &b in piece {
        s = take_byte(s, image, words, counts, line, b);
    }
    s
}

// Reads once into `input`, and gives how many bytes that put at its start: none at the end, or where the read fails.
fn read_some(stdin: &mut Stdin, input: &mut [u8]) -> usize
    ensures { result ≤ length input.new }
{
    stdin.read(input).unwrap_or(0)
}

// Reads a piece of the input and takes its bytes.
fn read_piece(
    stdin: &mut Stdin,
    s: Reading,
    image: &mut [u8],
    words: &mut Words,
    counts: &mut [u64],
    line: &mut [u8],
    input: &mut [u8],
) -> Reading
    requires sound { Sound s words.old }
    requires counts_len { (length counts.old ≡ 22) × (length line.old ≡ 1024) }
    ensures { Reads s words.old image.old counts.old line.old input.new
        result words.new image.new counts.new line.new }
{
    let n = read_some(stdin, input);
    let mut next = take_piece(s, image, words, counts, line, &input[..n]);
    next.more = n > 0;
    next
}

// Reads on, to the end of the input. A proved loop has to end, so this one counts its turns, up to a number that no run reaches.
fn read_all(
    stdin: &mut Stdin,
    s: Reading,
    image: &mut [u8],
    words: &mut Words,
    counts: &mut [u64],
    line: &mut [u8],
    input: &mut [u8],
) -> Reading
    requires sound { Sound s words.old }
    requires counts_len { (length counts.old ≡ 22) × (length line.old ≡ 1024) }
    ensures { TakesSome s words.old image.old counts.old line.old
        result words.new image.new counts.new line.new }
{
    let mut s = s;
    for _turn in 0..u64::MAX {
        if !s.more {
            break;
        }
        s = read_piece(stdin, s, image, words, counts, line, input);
    }
    s
}

// Takes a last line that no newline ends.
fn take_last(
    s: Reading,
    image: &mut [u8],
    words: &mut Words,
    counts: &mut [u64],
    line: &[u8],
) -> Mode
    requires sound { Sound s words.old }
    requires counts_len { (length counts.old ≡ 22) × (length line.now ≡ 1024) }
    ensures { Closes s words.old image.old counts.old line.now result words.new image.new
        counts.new }
{
    let kept = s.kept;
    let mode = s.mode;
    if kept == 0 {
        return mode;
    }
    wear_lines::take_line(image, words, mode, counts, &line[..kept])
}

// Takes the whole input, puts the response at the start of a buffer and says how long it is.
fn respond(
    stdin: &mut Stdin,
    image: &mut [u8],
    line: &mut [u8],
    input: &mut [u8],
    out: &mut [u8],
) -> usize
    requires line_len { length line.old ≡ 1024 }
    requires in_bounds { 462 ≤ length out.old }
    ensures { Responds (length image.old) out.old out.new result }
{
    let mut words = [0u64; 1280];
    let mut counts = [0u64; 22];
    let first = begin(image, &mut words);
    let read = read_all(stdin, first, image, &mut words, &mut counts, line, input);
    let _ = take_last(read, image, &mut words, &mut counts, line);
    output::put_response(out, &counts)
}

fn main(rt: HostRuntime) {
    let mut stdin = rt.stdin();
    let mut image = io::large_buffer();
    let mut line = [0u8; 1024];
    let mut input = io::large_buffer();
    let mut out = [0u8; 462];
    let n = respond(&mut stdin, &mut image, &mut line, &mut input, &mut out);
    if n <= 462 {
        io::write_all(1, &out[..n]);
    }
}
