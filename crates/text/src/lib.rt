// Text of scripts: a line as a letter and numbers.
#![tactic(auto)]

pub mod parse;

// A line of a script: one letter, then numbers, each after a comma. A line of another form has letter 0.
#[derive(Clone, Copy)]
pub struct Line {
    pub letter: u8,
    pub count: usize,
    pub numbers: [u64; 69],
}
