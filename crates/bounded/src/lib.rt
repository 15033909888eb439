// Definitions and laws for the loops and refusal tables of every layer (specs/, proofs/), and the smaller of two numbers.
#![tactic(auto)]

ghost use Rattle.std.specs.Prelude.{◌≡◌, min};

pub fn smaller(a: usize, b: usize) -> usize
    ensures { result ≡ min a b }
{
    if a < b { a } else { b }
}
