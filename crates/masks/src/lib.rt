// Sets of the 64 lines of a page, as masks (document 01: "Held and committed lines are sets kept as 64-bit masks").
#![tactic(auto)]

ghost use Rattle.std.specs.Prelude.{◌≡◌, ◌<◌, get_or};
ghost use Rattle.masks.specs.Lines.{in_mask, with_line, exclusive_or, disjoint, others, lines_in, lines_not_in, count_lines};

// Whether line i is in m.
pub fn has(m: u64, i: usize) -> bool
    requires { i < 64 }
    ensures { result ≡ in_mask m i }
{
    (m >> i) % 2 == 1
}

// m with line i.
pub fn with(m: u64, i: usize) -> u64
    requires { i < 64 }
    ensures { result ≡ with_line m i }
{
    m | (1 << i)
}

// The lines that are in one of a and b and not in the other.
pub fn exclusive_or(a: u64, b: u64) -> u64
    ensures { result ≡ exclusive_or a b }
{
    a ^ b
}

// Whether no line is in both a and b.
pub fn are_disjoint(a: u64, b: u64) -> bool
    ensures { result ≡ disjoint a b }
{
    a & b == 0
}

// How many lines are in m.
pub fn count(m: u64) -> usize
    ensures { result ≡ count_lines m }
{
    m.count_ones() as usize
}

// The line of m that has n lines of m below it, or 64 where there is none.
pub fn nth_in(m: u64, n: usize) -> usize
    ensures { result ≡ get_or (lines_in m) n 64 }
{
    let mut left = n;
    for i in 0..64 {
        if has(m, i) {
            if left == 0 {
                return i;
            }
            left -= 1;
        }
    }
    64
}

// The lines that are not in m.
fn complement(m: u64) -> u64
    ensures { result ≡ others m }
{
    !m
}

// The line outside m that has n lines outside m below it, or 64 where there is none.
pub fn nth_not_in(m: u64, n: usize) -> usize
    ensures { result ≡ get_or (lines_not_in m) n 64 }
{
    nth_in(complement(m), n)
}
