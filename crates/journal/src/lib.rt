// The journal: slots, records and live positions.
#![tactic(auto)]

pub mod records;
pub mod slots;

// What stands for the page and the original frame of a free slot: 2^64 - 1 and 2^32 - 1.
pub const NO_PAGE: usize = usize::MAX;

pub const NO_FRAME: usize = u32::MAX as usize;

// A word of two numbers below 2^32 is the first and so many times the second.
const HALF: u64 = 1 << 32;

// One slot. A free one has no page and no original frame.
#[derive(Clone, Copy, Debug, PartialEq, Eq)]
pub struct Slot {
    pub page: usize,
    pub original: usize,
    pub spare: usize,
    pub bitmap: u64,
}

// One journal record: the position of its transaction's first record, the slot that it replaces, and the slot's words.
#[derive(Clone, Copy, Debug, PartialEq, Eq)]
pub struct Record {
    pub first: usize,
    pub slot: usize,
    pub now: Slot,
}
