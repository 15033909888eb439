// Numbers and single bytes, printed into a buffer; each call gives where the next goes.
#![tactic(auto)]

ghost use Rattle.std.specs.Prelude.{◌≡◌, [], ◌∷◌, ◌+◌, ◌<◌, ◌≤◌, length};
ghost use Rattle.words.specs.Words.{over};
ghost use Rattle.decimals.specs.Decimal.{decimal_of};

// How many digits v has.
fn width(v: u64) -> usize
    ensures { result ≡ length (decimal_of v) }
{
    let mut n = 1;
    // A loop until nothing is left, which counts the digits; no index to count.
    let mut rest = v / 10;
    while rest > 0 {
        n += 1;
        rest = rest / 10;
    }
    n
}

// Puts v in decimals at byte at, from the last digit to the first.
pub fn put_decimal(target: &mut [u8], at: usize, v: u64) -> usize
    requires { at + 20 ≤ length target.old }
    ensures target_after { target.new ≡ over target.old at (decimal_of v) }
    ensures value { result ≡ at + length (decimal_of v) }
{
    let n = width(v);
    let mut rest = v;
    for k in (0..n).rev() {
        target[at + k] = (48 + rest % 10) as u8;
        rest = rest / 10;
    }
    at + n
}

// Puts the byte b at byte at.
pub fn put_byte(target: &mut [u8], at: usize, b: u8) -> usize
    requires { at < length target.old }
    ensures target_after { target.new ≡ over target.old at (b ∷ []) }
    ensures value { result ≡ at + 1 }
{
    target[at] = b;
    at + 1
}
