// The sequences of so many numbers of 1 to 12, counted from 0 in rising order.
#![tactic(auto)]

ghost use Rattle.std.specs.Prelude.{◌≡◌, length};
ghost use Rattle.sequences.specs.Sequences.{sequence};

// Sets the numbers to sequence i of as many, the last first.
pub fn fill(numbers: &mut [u64], i: u64)
    ensures { numbers.new ≡ sequence (length numbers.old) i }
{
    let mut rest = i;
    for k in (0..numbers.len()).rev() {
        numbers[k] = rest % 12 + 1;
        rest /= 12;
    }
}
