// Lines cut out of input that comes in pieces.
#![tactic(auto)]

ghost use Rattle.std.specs.Prelude.{◌≡◌, ◌+◌, ◌-◌, ◌≤◌, length};
ghost use Rattle.words.specs.Words.{over};
ghost use Rattle.cutting.specs.Finding.{index_of, slice};
ghost use Rattle.cutting.specs.Pieces.{line_end, fitting};

// Where the byte b first stands from `from` on and before `to`, or `to`.
pub fn find(input: &[u8], from: usize, to: usize, b: u8) -> usize
    requires low { from ≤ to }
    requires high { to ≤ length input.now }
    ensures value { result ≡ from + index_of b (slice from to input.now) }
    ensures within { result ≤ to }
{
    for at in from..to {
        if input[at] == b {
            return at;
        }
    }
    to
}

// Where the line that goes on at byte `from` ends: the next newline, or the input's end.
pub fn line_end(input: &[u8], from: usize) -> usize
    ensures { result ≡ line_end input.now from }
{
    if from > input.len() {
        return input.len();
    }
    find(input, from, input.len(), b'\n')
}

// Adds the input's bytes from `from` up to `to`, as many as fit, to a line that has its first `have` bytes, and gives
// how many it then has.
pub fn keep(line: &mut [u8], have: usize, input: &[u8], from: usize, to: usize) -> usize
    ensures line_after { line.new ≡ over line.old have (fitting line.old have input.now from to) }
    ensures value { result ≡ have + length (fitting line.old have input.now from to) }
{
    let room = line.len().saturating_sub(have);
    let n = to.min(input.len()).saturating_sub(from).min(room);
    if n == 0 {
        return have;
    }
    line[have..have + n].copy_from_slice(&input[from..from + n]);
    have + n
}
