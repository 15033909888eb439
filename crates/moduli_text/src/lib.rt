// A table of moduli as text: 24 lines `meter,modulus`, each ended by a newline, meters 0 to 23 in order, plain decimals. A modulus may have any
// number of digits: no sum wraps.
#![tactic(auto)]

ghost use Rattle.std.specs.Prelude.{◌≡◌, ◌+◌, ◌<◌, min, length, eqb, take, drop, MatchResult};
ghost use Rattle.std.specs.Char.{is_ascii_digit};
ghost use Rattle.std.specs.List.{list_all, position};
ghost use Rattle.moduli_text.specs.Text.{place_of, plain_decimal, value_of, modulus_in, entry_rows, line_rows, read_of, Decides, Reads};

use rows::Refusal;

// One more than the largest modulus: a larger number is as good as this one.
const BEYOND: u64 = 1000000000001;

// The place of the first byte b.
fn place_of(b: u8, s: &[u8]) -> Option<usize>
    ensures { result ≡ position (λ x. eqb x b) s.now }
{
    s.iter().position(|c| *c == b)
}

// What stands before the first byte b and what after it.
fn split_at_byte(b: u8, s: &[u8]) -> Result<(&[u8], &[u8]), Refusal>
    ensures { MatchResult result (λ parts. (place_of b s.now < length s.now) × (parts.0.now ≡ take (place_of b s.now) s.now)
        × (parts.1.now ≡ drop (place_of b s.now + 1) s.now)) (λ r. (r ≡ Refusal.BadTableLine) × (length s.now ≡ place_of b s.now)) }
{
    match place_of(b, s) {
        Some(place) => Ok((&s[..place], &s[place + 1..])),
        None => Err(Refusal::BadTableLine),
    }
}

// Whether digits alone stand here.
fn are_digits(s: &[u8]) -> bool
    ensures { result ≡ list_all is_ascii_digit s.now }
{
    s.iter().all(|c| c.is_ascii_digit())
}

// Whether this is a decimal without leading zeros.
fn is_plain(s: &[u8]) -> bool
    ensures { result ≡ plain_decimal s.now }
{
    if s.is_empty() {
        return false;
    }
    if 1 < s.len() && s[0] == b'0' {
        return false;
    }
    are_digits(s)
}

// The number of a decimal, BEYOND where it is larger.
fn value(s: &[u8]) -> u64
    ensures { result ≡ min (value_of s.now) 1000000000001 }
{
    let mut v: u64 = 0;
    for c in s {
        v = (10 * v + u64::from(c.saturating_sub(b'0'))).min(BEYOND);
    }
    v
}

// What stands in the line of meter m before and after its comma.
fn modulus_of<'a>(meter: &'a [u8], modulus: &'a [u8], m: usize) -> Result<u64, Refusal>
    requires { m < 24 }
    ensures { Decides result (entry_rows m meter.now modulus.now) (value_of modulus.now) }
{
    if !is_plain(meter) || value(meter) != m as u64 || !is_plain(modulus) {
        return Err(Refusal::BadTableLine);
    }
    let v = value(modulus);
    if meters::modulus_bad(v) {
        return Err(Refusal::ModulusOutOfRange);
    }
    Ok(v)
}

// The modulus in the line of meter m.
fn modulus_in(line: &[u8], m: usize) -> Result<u64, Refusal>
    requires { m < 24 }
    ensures { Decides result (line_rows m line.now) (modulus_in line.now) }
{
    let (meter, modulus) = split_at_byte(b',', line)?;
    modulus_of(meter, modulus, m)
}

// The moduli of a text, or the row of the first line that is turned back.
pub fn read_moduli(text: &[u8]) -> Result<[u64; 24], Refusal>
    ensures { Reads result (read_of text.now) }
{
    let mut moduli = [0; 24];
    let mut rest = text;
    for m in 0..24 {
        let (line, after) = split_at_byte(b'\n', rest)?;
        moduli[m] = modulus_in(line, m)?;
        rest = after;
    }
    if !rest.is_empty() {
        return Err(Refusal::BadTableLine);
    }
    Ok(moduli)
}
