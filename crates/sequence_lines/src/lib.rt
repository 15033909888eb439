// The line of a sequence of at most three calls, its last one cut.
#![tactic(auto)]

ghost use Rattle.std.specs.Prelude.{◌≡◌, [], ◌∷◌, ◌+◌, ◌*◌, ◌≤◌, length};
ghost use Rattle.number_text.specs.Text.{Put};
ghost use Rattle.sequences.specs.Sequences.{sequence};
ghost use Rattle.sequence_lines.specs.Listing.{marked, parted};
ghost use Rattle.sequence_lines.specs.Parts.{followed, PutLine};

use sequence_runs::Played;

// Where the next text goes, and the stores that the sequence's last call needs.
#[derive(Clone, Copy)]
pub struct Line {
    pub next: usize,
    pub needed: usize,
}

// A number and the mark after it.
fn put_marked(out: &mut [u8], at: usize, v: u64, mark: u8) -> usize
    requires { at + 21 ≤ length out.old }
    ensures { Put out.old at (marked v mark) out.new result }
{
    let next = decimals::put_decimal(out, at, v);
    decimals::put_byte(out, next, mark)
}

// Numbers, each followed by a comma.
fn put_followed(out: &mut [u8], at: usize, numbers: &[u64]) -> usize
    requires { at + 21 * length numbers.now ≤ length out.old }
    ensures { Put out.old at (followed numbers.now) out.new result }
{
    let mut next = at;
    for &v in numbers {
        next = put_marked(out, next, v, b',');
    }
    next
}

// The cut and the two bytes, parted by commas, and a newline.
fn put_end(out: &mut [u8], at: usize, k: usize, p: Played) -> usize
    requires { at + 63 ≤ length out.old }
    ensures { Put out.old at (parted (k ∷ p.first ∷ p.second ∷ [])) out.new result }
{
    let next = put_marked(out, at, k as u64, b',');
    let next = put_marked(out, next, p.first as u64, b',');
    put_marked(out, next, p.second as u64, b'\n')
}

// The line of sequence i of as many calls as the lent numbers and answers have places.
fn put_parts(
    out: &mut [u8],
    at: usize,
    numbers: &mut [u64],
    answers: &mut [u64],
    i: u64,
    k: usize,
) -> Line
    requires answers_len { length answers.old ≡ length numbers.old }
    requires numbers_in_bounds { at + (42 * length numbers.old + 63) ≤ length out.old }
    ensures { PutLine out.old at (sequence (length numbers.old) i) k out.new result }
{
    sequences::fill(numbers, i);
    let played = sequence_runs::play(numbers, k, answers);
    let next = put_followed(out, at, numbers);
    let next = put_followed(out, next, answers);
    let next = put_end(out, next, k, played);
    Line {
        next,
        needed: played.needed,
    }
}

// Puts the line of sequence i of n calls, its last one cut after k stores. No line has more than 189 bytes.
pub fn put_line(out: &mut [u8], at: usize, n: usize, i: u64, k: usize) -> Line
    requires n_bound { n ≤ 3 }
    requires at_in_bounds { at + 189 ≤ length out.old }
    ensures { PutLine out.old at (sequence n i) k out.new result }
{
    let mut numbers = [0u64; 3];
    let mut answers = [0u64; 3];
    put_parts(out, at, &mut numbers[..n], &mut answers[..n], i, k)
}
