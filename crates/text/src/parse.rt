// A line of a script as a letter and numbers, in one pass over its bytes.
ghost use Rattle.std.specs.Prelude.{◌≡◌, [], ◌∷◌};
ghost use Rattle.text.specs.Fields.{fields, other_form, line_of, parsed};
ghost use Rattle.text.specs.Digits.{takes, closes};

use crate::Line;

// The tenth part of 2^64: with it before, the last digit is at most 5.
const TENTH: u64 = 1844674407370955161;

fn other_form() -> Line
    ensures { result ≡ other_form }
{
    let numbers = [0; 69];
    Line {
        letter: 0,
        count: 0,
        numbers: numbers,
    }
}

// Whether byte b can follow the n digits of value v that a field has so far.
fn takes_digit(digits: usize, n: usize, v: u64, b: u8) -> bool
    ensures { result ≡ takes digits n v b }
{
    if b < 48 {
        return false;
    }
    let d = b - 48;
    (b <= 57) & (n < digits) & ((v < TENTH) | (v == TENTH) & (d <= 5))
}

// Whether a field of n digits can end there as a number, count numbers standing before it.
fn closes_field(n: usize, count: usize) -> bool
    ensures { result ≡ closes n count }
{
    (0 < n) & (count < 69)
}

// The numbers of text, which stands after a letter and a comma. A field so far has n digits of value v.
fn numbers(letter: u8, text: &[u8], digits: usize) -> Line
    ensures { result ≡ line_of digits ((letter ∷ []) ∷ fields text.now) }
{
    let mut numbers = [0; 69];
    let mut count: usize = 0;
    let mut n: usize = 0;
    let mut v: u64 = 0;
    for b in text {
        if *b == b',' {
            if !closes_field(n, count) {
                return other_form();
            }
            numbers[count] = v;
            count += 1;
            n = 0;
            v = 0;
            continue;
        }
        if !takes_digit(digits, n, v, *b) {
            return other_form();
        }
        v = 10 * v + (*b - b'0') as u64;
        n += 1;
    }
    if !closes_field(n, count) {
        return other_form();
    }
    numbers[count] = v;
    Line {
        letter: letter,
        count: count + 1,
        numbers: numbers,
    }
}

// The line as a letter and numbers of 1 to `digits` digits each.
pub fn parse(line: &[u8], digits: usize) -> Line
    ensures { result ≡ parsed digits line.now }
{
    if line.len() == 0 {
        return other_form();
    }
    let letter = line[0];
    if letter == 44 {
        return other_form();
    }
    if line.len() == 1 {
        let none = [0; 69];
        return Line {
            letter: letter,
            count: 0,
            numbers: none,
        };
    }
    if line[1] != 44 {
        return other_form();
    }
    numbers(letter, &line[2..], digits)
}
