// Program powerhit's lines performed on the calls: a line's turn, and the line that it prints.
#![tactic(auto)]

pub mod performing;
mod turns;

use executing::Mode;

// The mode after a line, and where the next printed line goes.
#[derive(Clone, Copy)]
pub struct Performed {
    pub mode: Mode,
    pub end: usize,
}
