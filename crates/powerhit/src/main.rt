// Program powerhit: calls as lines of standard input, each answered by a line of standard output (document 01).
// What a line does and prints is script's. Here the input is cut into lines and the output is collected.
#![tactic(auto)]

ghost use Rattle.std.specs.Prelude.{◌≡◌, ℕ, ◌≤◌, List, [], ◌∷◌, length};
ghost use Rattle.cutting.specs.Pieces.{line_end};
ghost use Rattle.powerhit.specs.Program.{roomed, Shows, first, Takes, Lines, Closes, Reads, TakesSome, Ran};

use executing::Mode;
use script::performing;
use state_words::{WORD_COUNT, Words};
use std::io::{Read, Stdin};

// The program between two pieces of the input.
#[derive(Clone, Copy)]
struct Session {
    mode: Mode,
    // lines performed
    lines: usize,
    // where the next line begins in the piece at hand
    start: usize,
    // bytes of a line that is not at its end
    kept: usize,
    // bytes of output that are not yet written
    at: usize,
    // whether the last read put any bytes (as None of a read's Session this would not say that the bytes of a short read are performed)
    more: bool,
    // whether every write went well (no `?`: lines are performed after a failed write too, as the contracts say)
    ok: bool,
}

// No byte is read yet.
fn started(words: &mut Words) -> Session
    ensures { (image line out : List ℕ) → Shows result words.new image line out (first image) }
{
    let mode = performing::start(words);
    Session {
        mode,
        lines: 0,
        start: 0,
        kept: 0,
        at: 0,
        more: true,
        ok: true,
    }
}

fn write_out(out: &[u8; 65536], at: usize) -> bool {
    match out.get(..at) {
        Some(bytes) => io::write_all(1, bytes),
        None => false,
    }
}

// Writes a full buffer, unless a write failed before, and gives whether every write went well.
fn write_full(out: &[u8; 65536], at: usize, ok: bool) -> bool {
    if ok && at > 65000 {
        return write_out(out, at);
    }
    ok
}

// How many bytes of output wait after that.
fn left(at: usize) -> usize
    ensures { result ≡ roomed at }
{
    if at <= 65000 { at } else { 0 }
}

// Performs the lines of a piece that a newline ends, from one on that goes from byte `from` to byte `to`.
fn perform_lines(
    image: &mut [u8],
    words: &mut Words,
    s: Session,
    piece: &[u8],
    from: usize,
    to: usize,
    out: &mut [u8; 65536],
) -> Session
    requires from_le_to { from ≤ to }
    requires to_value { to ≡ line_end piece.now to }
    ensures { Lines s words.old image.old out.old piece.now from to
        result words.new image.new out.new }
{
    let mut mode = s.mode;
    let mut lines = s.lines;
    let mut at = s.at;
    let mut start = from;
    let mut end = to;
    let mut ok = s.ok;
    // no `for`: where the next line ends is found, not counted
    while end < piece.len() {
        ok = write_full(out, at, ok);
        at = left(at);
        lines = lines.wrapping_add(1);
        let p = performing::perform(image, words, mode, lines, &piece[start..end], out, at);
        mode = p.mode;
        at = p.end;
        start = end + 1;
        end = cutting::line_end(piece, start);
    }
    Session {
        mode,
        lines,
        start,
        kept: 0,
        at,
        more: true,
        ok,
    }
}

// Performs the line that was kept, its newline put behind it. One that fills the buffer is too long to be of any right form.
fn perform_kept(
    image: &mut [u8],
    words: &mut Words,
    s: Session,
    line: &mut [u8],
    out: &mut [u8; 65536],
) -> Session
    requires { length line.old ≡ 2048 }
    ensures { Takes s words.old image.old line.old out.old (10 ∷ [])
        result words.new image.new line.new out.new }
{
    let end = bounded::smaller(s.kept, 2047);
    line[end] = b'\n';
    perform_lines(image, words, s, &line[..end + 1], 0, end, out)
}

// Performs the lines of a piece. The first may have begun in an earlier piece; what stands after the last is kept.
fn perform_piece(
    image: &mut [u8],
    words: &mut Words,
    s: Session,
    line: &mut [u8; 2048],
    piece: &[u8],
    out: &mut [u8; 65536],
) -> Session
    ensures { Takes s words.old image.old line.old out.old piece.now
        result words.new image.new line.new out.new }
{
    let end = cutting::line_end(piece, 0);
    let mut begun = s;
    begun.kept = cutting::keep(line, s.kept, piece, 0, end);
    if end == piece.len() {
        return begun;
    }
    let next = perform_kept(image, words, begun, line, out);
    let from = end + 1;
    let mut last = perform_lines(
        image,
        words,
        next,
        piece,
        from,
        cutting::line_end(piece, from),
        out,
    );
    last.kept = cutting::keep(line, 0, piece, last.start, piece.len());
    last
}

// Reads once into `input`, and gives how many bytes that put at its start: none at the end, or where the read fails.
fn read_some(stdin: &mut Stdin, input: &mut [u8]) -> usize
    ensures { result ≤ length input.new }
{
    stdin.read(input).unwrap_or(0)
}

// Reads a piece of the input and performs its lines.
fn read_piece(
    stdin: &mut Stdin,
    image: &mut [u8],
    words: &mut Words,
    s: Session,
    line: &mut [u8; 2048],
    input: &mut [u8],
    out: &mut [u8; 65536],
) -> Session
    ensures { Reads s words.old image.old line.old out.old input.new
        result words.new image.new line.new out.new }
{
    let n = read_some(stdin, input);
    let mut next = perform_piece(image, words, s, line, &input[..n], out);
    next.more = n > 0;
    next
}

// Reads to the end of the input. A proved loop has to end, so this one counts its turns, up to a number that no run reaches.
fn read_all(
    stdin: &mut Stdin,
    image: &mut [u8],
    words: &mut Words,
    s: Session,
    line: &mut [u8; 2048],
    input: &mut [u8],
    out: &mut [u8; 65536],
) -> Session
    ensures { TakesSome s words.old image.old line.old out.old
        result words.new image.new line.new out.new }
{
    let mut s = s;
    for _turn in 0..u64::MAX {
        if !(s.more && s.ok) {
            break;
        }
        s = read_piece(stdin, image, words, s, line, input, out);
    }
    s
}

// Performs a last line that no newline ends.
fn perform_last(
    image: &mut [u8],
    words: &mut Words,
    s: Session,
    line: &mut [u8; 2048],
    out: &mut [u8; 65536],
) -> Session
    ensures { Closes s words.old image.old line.old out.old
        result words.new image.new out.new }
{
    let text: &mut [u8] = line;
    if s.kept == 0 {
        return s;
    }
    perform_kept(image, words, s, text, out)
}

// Performs the lines of the whole input. What of the output is not written yet is left to the caller.
fn perform_input(
    stdin: &mut Stdin,
    image: &mut [u8],
    words: &mut Words,
    line: &mut [u8; 2048],
    input: &mut [u8],
    out: &mut [u8; 65536],
) -> Session
    ensures { Ran image.old result words.new image.new out.new }
{
    let first = started(words);
    let s = read_all(stdin, image, words, first, line, input, out);
    perform_last(image, words, s, line, out)
}

fn main(rt: HostRuntime) {
    let mut stdin = rt.stdin();
    let mut image = io::large_buffer();
    let mut words = [0u64; WORD_COUNT];
    let mut line = [0u8; 2048];
    let mut input = io::large_buffer();
    let mut out = io::large_buffer();
    if !io::write_all(1, b"line,call,answer,stores,byte\n") {
        return;
    }
    let last = perform_input(
        &mut stdin, &mut image, &mut words, &mut line, &mut input, &mut out,
    );
    if last.ok {
        write_out(&out, last.at);
    }
}
