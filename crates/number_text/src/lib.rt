// Numbers, each after a comma or a blank.
#![tactic(auto)]

ghost use Rattle.std.specs.Prelude.{◌∷◌, ◌+◌, ◌*◌, ◌≤◌, length};
ghost use Rattle.decimals.specs.Decimal.{decimal_of};
ghost use Rattle.number_text.specs.Text.{Put, blanked};

// A number after a mark.
pub fn put_after(out: &mut [u8], at: usize, mark: u8, v: u64) -> usize
    requires { at + 21 ≤ length out.old }
    ensures { Put out.old at (mark ∷ decimal_of v) out.new result }
{
    let next = decimals::put_byte(out, at, mark);
    decimals::put_decimal(out, next, v)
}

// Numbers, each after a blank.
pub fn put_numbers(out: &mut [u8], at: usize, numbers: &[u64]) -> usize
    requires { at + 21 * length numbers.now ≤ length out.old }
    ensures { Put out.old at (blanked numbers.now) out.new result }
{
    let mut next = at;
    for number in numbers {
        next = put_after(out, next, b' ', *number);
    }
    next
}
