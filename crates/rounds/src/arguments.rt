// Numbers among the program's arguments.
ghost use Rattle.std.specs.Prelude.{◌<◌};

use std::rt::Env;

// A digit's value; any other byte counts as 0.
fn digit(b: u8) -> usize
    ensures { result < 10 }
{
    match b {
        b'0'..=b'9' => usize::from(b - b'0'),
        _ => 0,
    }
}

// The number that digits make, by its last nine.
fn value(text: &[u8]) -> usize
    ensures { result < 1000000000 }
{
    let mut v = 0;
    for b in text {
        v = (10 * v + digit(*b)) % 1000000000;
    }
    v
}

// Argument i as a number, or another where it is missing.
pub fn at(rt: &impl Env, i: usize, missing: usize) -> usize {
    let mut text = [0u8; 16];
    match rt.arg(i, &mut text) {
        Ok(n) => value(&text[..n]),
        Err(_) => missing,
    }
}
