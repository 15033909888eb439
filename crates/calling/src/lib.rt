// What powerhit's and probe's lines share in making a call: a write by a line's numbers, and the stores that an answer tells.
#![tactic(auto)]

ghost use Rattle.std.specs.Prelude.{◌≡◌, true, ◌≤◌, replicate};
ghost use Rattle.bounded.specs.Tab.{filled};
ghost use Rattle.answers.specs.Answers.{number_of, stores_of, answered_at};
ghost use Rattle.op_stores.specs.Started.{Started};
ghost use Rattle.state_words.specs.Decoded.{decoded};
ghost use Rattle.calling.specs.WriteLine.{datum, are_bytes, has_data, write_by};

use answers::Answer;
use call_write::Span;
use op_stores::Until;
use state_words::Words;

// Whether the n numbers after the first five are bytes.
fn all_bytes(numbers: &[u64; 69], n: usize) -> bool
    requires { n ≤ 64 }
    ensures { result ≡ are_bytes n numbers.now }
{
    for i in 0..n {
        if numbers[5 + i] > 255 {
            return false;
        }
    }
    true
}

// Whether the numbers are a write's: five, then at most 64 bytes.
pub fn has_data(count: usize, numbers: &[u64; 69]) -> bool
    ensures { result ≡ has_data count numbers.now }
{
    if count < 5 {
        return false;
    }
    if count > 69 {
        return false;
    }
    all_bytes(numbers, count - 5)
}

// The n bytes after the first five numbers.
fn data_of(numbers: &[u64; 69], n: usize) -> [u8; 64]
    requires { (n ≤ 64) × (are_bytes n numbers.now ≡ true) }
    ensures { result ≡ filled n (datum numbers.now) (replicate 64 0) }
{
    let mut bytes = [0u8; 64];
    for i in 0..n {
        bytes[i] = numbers[5 + i] as u8;
    }
    bytes
}

// The write that a line's numbers ask for, gone on with as far as is said. A call that is turned back changes no word.
pub fn write_until(
    image: &mut [u8],
    words: &mut Words,
    count: usize,
    numbers: &[u64; 69],
    until: Until,
) -> Answer
    requires { has_data count numbers.now ≡ true }
    ensures started { Started result (decoded words.new) image.new
        (write_by (decoded words.old) image.old count numbers.now) image.old until }
    ensures words { (number_of result ≡ 0 → ⊥) → words.new ≡ words.old }
{
    let n = count - 5;
    let bytes = data_of(numbers, n);
    let span = Span {
        page: numbers[1] as usize,
        line: numbers[2] as usize,
        offset: numbers[3] as usize,
        length: numbers[4] as usize,
    };
    let writer = numbers[0] as usize;
    call_write::write(image, words, writer, span, &bytes[..n], until)
}

// The same asked for: its stores are pending, and none is made.
pub fn write(image: &mut [u8], words: &mut Words, count: usize, numbers: &[u64; 69]) -> Answer
    requires { has_data count numbers.now ≡ true }
    ensures state { answered_at result (decoded words.new)
        ≡ write_by (decoded words.old) image.old count numbers.now }
    ensures bytes { image.new ≡ image.old }
    ensures words { (number_of result ≡ 0 → ⊥) → words.new ≡ words.old }
{
    write_until(image, words, count, numbers, Until::Asked)
}

// The stores that a taken call needs or made.
pub fn stores_of(a: Answer) -> usize
    ensures { result ≡ stores_of a }
{
    a.unwrap_or(0)
}
