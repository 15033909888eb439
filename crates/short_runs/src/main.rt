// Program short_runs: for a digit n of 0 to 3 every sequence of n calls on a fresh image, its last call cut after each count of stores, and the first
// bytes that a mount then shows (request L9). A line is sequence_lines'; here the input is read and the output is collected.
#![tactic(auto)]

ghost use Rattle.std.specs.Prelude.{◌≡◌, ◌^◌, ◌≤◌, length, MatchOption};
ghost use Rattle.cutting.specs.Buffers.{Ends};
ghost use Rattle.sequences.specs.Sequences.{sequence};
ghost use Rattle.sequence_lines.specs.Listing.{lines_of, listing};
ghost use Rattle.short_runs.specs.Program.{roomed, digit_of, wanted_of, mark, with_lines, with_listing, Prints, PutCut, Responds};

// The output so far: how many of its bytes wait in the buffer, and whether every write went well (no `?`: after a failed write the contracts
// go on to tell the bytes that wait).
#[derive(Clone, Copy)]
struct Output {
    at: usize,
    ok: bool,
}

// The output after a line, and the stores that the sequence's last call needs.
#[derive(Clone, Copy)]
struct Cut {
    output: Output,
    needed: usize,
}

fn write_out(out: &[u8; 65536], at: usize) -> bool {
    match out.get(..at) {
        Some(bytes) => io::write_all(1, bytes),
        None => false,
    }
}

// Writes what waits where there may be too little room for a line.
fn make_room(s: Output, out: &[u8; 65536]) -> Output
    ensures { result.at ≡ roomed s.at }
{
    if s.at <= 65000 {
        return s;
    }
    let ok = s.ok && write_out(out, s.at);
    Output { at: 0, ok }
}

// The line of sequence i of n calls, its last one cut after k stores.
fn put_cut(s: Output, out: &mut [u8; 65536], n: usize, i: u64, k: usize) -> Cut
    requires { n ≤ 3 }
    ensures { PutCut s out.old (sequence n i) k result out.new }
{
    let room = make_room(s, out);
    let line = sequence_lines::put_line(out, room.at, n, i, k);
    let output = Output {
        at: line.next,
        ok: room.ok,
    };
    Cut {
        output,
        needed: line.needed,
    }
}

// The lines of sequence i of n calls.
fn put_cuts(s: Output, out: &mut [u8; 65536], n: usize, i: u64) -> Output
    requires { n ≤ 3 }
    ensures { Prints s out.old (lines_of (sequence n i)) (with_lines (sequence n i)) result out.new }
{
    let mut output = s;
    let mut k = 0;
    // no `for`: how many cuts there are is known after the first
    loop {
        let cut = put_cut(output, out, n, i, k);
        output = cut.output;
        if k >= cut.needed {
            return output;
        }
        k += 1;
    }
}

// How many sequences of n calls there are.
fn total(n: usize) -> u64
    requires { n ≤ 3 }
    ensures { result ≡ 12 ^ n }
{
    match n {
        0 => 1,
        1 => 12,
        2 => 144,
        _ => 1728,
    }
}

// The lines of all sequences of n calls.
fn put_all(s: Output, out: &mut [u8; 65536], n: usize) -> Output
    requires { n ≤ 3 }
    ensures { Prints s out.old (listing n) (with_listing n) result out.new }
{
    let mut output = s;
    for i in 0..total(n) {
        output = put_cuts(output, out, n, i);
    }
    output
}

// The number of a digit of 0 to 3.
fn digit_of(b: u8) -> Option<usize>
    ensures { MatchOption result (digit_of b ≡ 4) (λ n. (n ≡ digit_of b) × (n ≤ 3)) }
{
    match b {
        b'0'..=b'3' => Some((b - b'0') as usize),
        _ => None,
    }
}

// The number that the input asks for: one digit of 0 to 3, with or without a newline.
fn wanted(input: &[u8]) -> Option<usize>
    ensures { MatchOption result (wanted_of input.now ≡ 4) (λ n. (n ≡ wanted_of input.now) × (n ≤ 3)) }
{
    match input {
        [b] | [b, b'\n'] => digit_of(*b),
        _ => None,
    }
}

// The answer to any other input.
fn put_mark(out: &mut [u8])
    requires { 2 ≤ length out.old }
    ensures { Ends out.new 2 mark }
{
    out[0] = b'?';
    out[1] = b'\n';
}

// What the program prints. What of it is not written yet is left to the caller.
fn respond(input: &[u8], out: &mut [u8; 65536]) -> Output
    ensures { Responds input.now result out.new }
{
    let s = Output { at: 0, ok: true };
    match wanted(input) {
        Some(n) => put_all(s, out, n),
        None => {
            put_mark(out);
            Output { at: 2, ok: true }
        }
    }
}

// Three bytes tell whether the input is right.
fn main() {
    let mut input = [0u8; 3];
    let mut out = io::large_buffer();
    let n = io::read_full(0, &mut input);
    let last = respond(&input[..n], &mut out);
    if last.ok {
        write_out(&out, last.at);
    }
}
