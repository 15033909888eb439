// Operations, and the numbers of a state that go by value.
#![tactic(auto)]

pub mod held;
pub mod slots;

// An operation that has been asked for, with its arguments. `Log` and `Copy` are the wide writer's write and commit;
// `Format` is of the sizes that the state has.
#[derive(Clone, Copy, Debug, PartialEq, Eq)]
pub enum Op {
    Idle,
    Write {
        writer: usize,
        page: usize,
        line: usize,
        offset: usize,
        length: usize,
    },
    Commit {
        writer: usize,
    },
    Consolidate {
        page: usize,
    },
    Checkpoint,
    Event {
        kind: usize,
        meter: usize,
        amount: u64,
    },
    Prepare {
        writer: usize,
    },
    Confirm {
        writer: usize,
    },
    Log {
        page: usize,
        line: usize,
        offset: usize,
        length: usize,
    },
    Copy,
    Format,
}

// What stands for no writer where one is prepared or wide; so does any other number above 3.
pub const NO_WRITER: usize = 4;

// The pending operation, how many of its stores are made, and for a write the finished line's words. An event has the same, and the second line's
// words where it has two.
#[derive(Clone, Copy, Debug, PartialEq, Eq)]
pub struct Pending {
    pub op: Op,
    pub made: usize,
    pub line: [u64; 8],
    pub second: [u64; 8],
}

// Head, tail, the next slot to try, the prepared writer, the wide one, and how many entries it uses.
#[derive(Clone, Copy, Debug, PartialEq, Eq)]
pub struct Places {
    pub head: usize,
    pub tail: usize,
    pub next: usize,
    pub prepared: usize,
    pub wide: usize,
    pub count: usize,
}
