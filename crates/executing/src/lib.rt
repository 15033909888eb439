// The call that a line of powerhit's script asks for, and the stores that it needs: all of them, or under a K at most k, and then a mount.
#![tactic(auto)]

pub mod calls;
pub mod finishing;

use printing::Output;

// What the program keeps between two lines beside the words. Until a format is taken it obeys nothing else.
// The number of a K waits here for the next taken operation that needs stores.
#[derive(Clone, Copy, Debug, PartialEq, Eq)]
pub struct Mode {
    pub formatted: bool,
    pub cut: Option<usize>,
}

// The mode after a line, and what the line prints.
#[derive(Clone, Copy)]
pub struct Turned {
    pub mode: Mode,
    pub output: Output,
}
