// Input cut into lines, output collected.
ghost use Rattle.std.specs.Prelude.{◌≡◌, ◌<◌, ◌≤◌, [], ◌∷◌, length};
ghost use Rattle.probe.specs.Program.{roomed, stand, Takes, Reads, TakesSome, Closes, Ran};

use crate::{Session, line_reading};
use state_words::Words;
use std::io::{Read, Stdin};
use workbench::moduli::Moduli;

// Writes the first n bytes out.
fn write_out(out: &[u8], n: usize) -> bool {
    if n > out.len() {
        return false;
    }
    io::write_all(1, &out[..n])
}

// Room for a line of output: where little is left, all that waits is written.
fn make_room(s: Session, out: &[u8]) -> Session
    ensures room { result.at ≤ 36000 }
    ensures same { result ≡ record { lent = s.lent; lines = s.lines; kept = s.kept; at = roomed s.at; more = result.more } }
{
    if s.at <= 36000 {
        return s;
    }
    let mut next = s;
    next.more = write_out(out, s.at) & s.more;
    next.at = 0;
    next
}

// Performs the line that was kept, whose newline has come. A line of more than 1,450 bytes is of another form, so a buffer
// for more keeps enough of any.
fn perform_kept(
    s: Session,
    buffer: &mut [u8; 65536],
    words: &mut Words,
    table: &mut Moduli,
    line: &[u8],
    out: &mut [u8; 65536],
) -> Session
    requires { 1450 < length line.now }
    ensures { Takes (stand s buffer.old words.old table.old line.now out.old) (10 ∷ [])
        (stand result buffer.new words.new table.new line.now out.new) }
{
    let mut next = make_room(s, out);
    let k = bounded::smaller(next.kept, line.len());
    next.lines = next.lines.wrapping_add(1);
    next.kept = 0;
    let p = line_reading::perform(
        buffer,
        words,
        table,
        next.lent,
        &line[..k],
        next.lines,
        out,
        next.at,
    );
    next.lent = p.lent;
    next.at = p.next;
    next
}

// Performs the lines that end in a piece of the input. Of a line that goes on, what fits is kept; one that does not fit is
// of another form either way.
fn perform_piece(
    s: Session,
    buffer: &mut [u8; 65536],
    words: &mut Words,
    table: &mut Moduli,
    line: &mut [u8; 2048],
    piece: &[u8],
    out: &mut [u8; 65536],
) -> Session
    ensures { Takes (stand s buffer.old words.old table.old line.old out.old) piece.now
        (stand result buffer.new words.new table.new line.new out.new) }
{
    let mut s = s;
    let mut from = 0;
    // no `for`: where the next line ends is found, not counted
    while from < piece.len() {
        let end = cutting::line_end(piece, from);
        let kept = cutting::keep(line, s.kept, piece, from, end);
        s.kept = kept;
        if end >= piece.len() {
            return s;
        }
        s = perform_kept(s, buffer, words, table, line, out);
        from = end + 1;
    }
    s
}

// Reads once into `input`, and gives how many bytes that put at its start: none at the end, or where the read fails.
fn read_some(stdin: &mut Stdin, input: &mut [u8]) -> usize
    ensures { result ≤ length input.new }
{
    match stdin.read(input) {
        Ok(n) => n,
        Err(_) => 0,
    }
}

// Reads a piece of the input and performs its lines.
fn read_piece(
    stdin: &mut Stdin,
    s: Session,
    buffer: &mut [u8; 65536],
    words: &mut Words,
    table: &mut Moduli,
    line: &mut [u8; 2048],
    input: &mut [u8],
    out: &mut [u8; 65536],
) -> Session
    ensures { Reads (stand s buffer.old words.old table.old line.old out.old) input.new
        (stand result buffer.new words.new table.new line.new out.new) }
{
    let n = read_some(stdin, input);
    if n == 0 {
        let mut ended = s;
        ended.more = false;
        return ended;
    }
    perform_piece(s, buffer, words, table, line, &input[..n], out)
}

// Reads to the end of the input. A proved loop has to end, so this one has more turns than any run takes.
fn read_all(
    stdin: &mut Stdin,
    s: Session,
    buffer: &mut [u8; 65536],
    words: &mut Words,
    table: &mut Moduli,
    line: &mut [u8; 2048],
    input: &mut [u8; 65536],
    out: &mut [u8; 65536],
) -> Session
    ensures { TakesSome (stand s buffer.old words.old table.old line.old out.old)
        (stand result buffer.new words.new table.new line.new out.new) }
{
    let mut s = s;
    for _turn in 0..u64::MAX {
        if !s.more {
            return s;
        }
        s = read_piece(stdin, s, buffer, words, table, line, input, out);
    }
    s
}

// Performs a last line that no newline ends.
fn perform_last(
    s: Session,
    buffer: &mut [u8; 65536],
    words: &mut Words,
    table: &mut Moduli,
    line: &[u8],
    out: &mut [u8; 65536],
) -> Session
    requires { 1450 < length line.now }
    ensures { Closes (stand s buffer.old words.old table.old line.now out.old)
        (stand result buffer.new words.new table.new line.now out.new) }
{
    if s.kept == 0 {
        return s;
    }
    perform_kept(s, buffer, words, table, line, out)
}

// Performs all lines of the input; the end of what they print is left in `out`.
fn perform_all(
    stdin: &mut Stdin,
    buffer: &mut [u8; 65536],
    words: &mut Words,
    table: &mut Moduli,
    line: &mut [u8; 2048],
    input: &mut [u8; 65536],
    out: &mut [u8; 65536],
) -> Session
    ensures { Ran buffer.old (stand result buffer.new words.new table.new line.new out.new) }
{
    workbench::starting::put_first(words);
    *table = Moduli::first();
    let s = read_all(
        stdin,
        crate::started(),
        buffer,
        words,
        table,
        line,
        input,
        out,
    );
    perform_last(s, buffer, words, table, line, out)
}

// Performs all lines of the input, and writes all that they print.
pub fn run(
    stdin: &mut Stdin,
    buffer: &mut [u8; 65536],
    words: &mut Words,
    table: &mut Moduli,
    line: &mut [u8; 2048],
    input: &mut [u8; 65536],
    out: &mut [u8; 65536],
) {
    let s = perform_all(stdin, buffer, words, table, line, input, out);
    write_out(out, s.at);
}
