// What probe's lines print. The state that they work on is lent as words; what a line leaves of it stands in each line's contract.
#![tactic(auto)]

pub mod finished;
pub mod moduli;
pub mod starting;

ghost use Rattle.std.specs.Prelude.{◌≡◌, ◌≤◌};
ghost use Rattle.workbench.specs.Turns.{done, numbers_of};

use text::Line;

// What a line of its letter's form prints after its number: its answer and a count; where a store goes and whether it decides; a hash; the state's numbers.
#[derive(Clone, Copy, Debug, PartialEq, Eq)]
pub enum Said {
    Answered { number: usize, count: usize },
    Store { at: usize, decides: bool },
    Hash(u64),
    Numbers,
}

// An edit that is done.
pub fn edited() -> Said
    ensures { result ≡ done }
{
    Said::Answered {
        number: 0,
        count: 0,
    }
}

// The numbers of a line that has N of them.
pub fn numbers<const N: usize>(line: Line) -> Option<[u64; N]>
    requires { N ≤ 69 }
    ensures { result ≡ numbers_of N line }
{
    if line.count != N {
        return None;
    }
    let mut numbers = [0u64; N];
    numbers.copy_from_slice(&line.numbers[..N]);
    Some(numbers)
}
