// The words of a refusal: which numbers each call can return, the calls' names and the numbers' texts, each in a constant table.
#![tactic(auto)]

ghost use Rattle.std.specs.Prelude.{◌≡◌, ◌+◌, ◌<◌, ◌≤◌, length};
ghost use Rattle.number_text.specs.Text.{Put};
ghost use Rattle.wording.specs.Calls.{call_count, number_count, can_return, takes_writer, takes_page, takes_line, meets_writer};
ghost use Rattle.wording.specs.Words.{name_of, text_of, starts_with, call_named};

// The calls, as the service screen numbers them. They are no enum: a host in C passes any number, and `can_return` turns back what is no call.
pub const FORMAT: usize = 0;

pub const MOUNT: usize = 1;

pub const RECALL: usize = 2;

pub const BEGIN: usize = 3;

pub const ABORT: usize = 4;

pub const WRITE: usize = 5;

pub const COMMIT: usize = 6;

pub const CONSOLIDATE: usize = 7;

pub const CHECKPOINT: usize = 8;

pub const READ: usize = 9;

pub const STEP: usize = 10;

pub const RUN: usize = 11;

pub const FREE_SLOT: usize = 12;

pub const EVENT: usize = 13;

pub const PREPARE: usize = 14;

pub const CONFIRM: usize = 15;

pub const WITHDRAW: usize = 16;

pub const LOAD: usize = 17;

pub const BEGIN_WIDE: usize = 18;

// How many calls and numbers the tables have.
const CALLS: usize = 19;

const NUMBERS: usize = 31;

// A row for each number from 0 on, a column for each call: `x` where the call can return the number.
const RETURNS: [[u8; CALLS]; NUMBERS] = [
    *b"                   ",
    *b" xx                ",
    *b" xx                ",
    *b"xxx                ",
    *b"xxx  xxxxxxxxxxxxx ",
    *b" xx                ",
    *b" xx                ",
    *b" xx                ",
    *b"   xxxxxxxxxxxxxxxx",
    *b"   xxxxxxx  xxxxxxx",
    *b"          xx       ",
    *b"  xxxxxx x    xxx x",
    *b"   x         x     ",
    *b"    xxx       x    ",
    *b"     x       x     ",
    *b"     x       x     ",
    *b"                   ",
    *b"       x           ",
    *b"       x           ",
    *b"      xx    xxx    ",
    *b"             x     ",
    *b"             x     ",
    *b"            x      ",
    *b"    xxxx    xxx    ",
    *b"               xx  ",
    *b"                 x ",
    *b"             x   x ",
    *b"                 x ",
    *b"                  x",
    *b"   x         xx   x",
    *b"     x             ",
];

// The calls' names.
const NAMES: [&[u8]; CALLS] = [
    b"Format",
    b"Mount",
    b"Recall",
    b"Begin",
    b"Abort",
    b"Write",
    b"Commit",
    b"Consolidate",
    b"Checkpoint",
    b"Read",
    b"Step",
    b"Run",
    b"Free slot",
    b"Event",
    b"Prepare",
    b"A confirm",
    b"Withdraw",
    b"Load",
    b"Wide begin",
];

// The numbers' texts.
const TEXTS: [&[u8]; NUMBERS] = [
    b"",
    b"the image is shorter than its header",
    b"the layout of the image is unknown",
    b"pages, slots, places or entries are out of range",
    b"the buffer is shorter than the sizes need",
    b"head or tail of the journal is out of range",
    b"a live record or entry is damaged",
    b"slots and page table do not name each frame once",
    b"the state breaks its rules",
    b"an operation is pending",
    b"no operation is pending",
    b"an argument is out of range",
    b"the writer is already open",
    b"the writer is not open",
    b"another writer holds the line",
    b"the page has no slot and none is free",
    b"",
    b"the page has no slot",
    b"a writer holds a line of the page",
    b"the journal has no room for the records",
    b"the event or its meter is unknown",
    b"the amount or the new credit is out of range",
    b"there is no taken slot without a held line",
    b"a transaction is prepared",
    b"the writer is not prepared",
    b"a line of the table is wrong",
    b"a modulus is out of range",
    b"a stored meter is not below its modulus",
    b"the image has no entries for wide rounds",
    b"a wide transaction must be the only open one",
    b"all entries for wide rounds are used",
];

// Whether a call can return a number.
pub fn can_return(call: usize, number: usize) -> bool
    ensures { result ≡ can_return call number }
{
    if call >= CALLS || number >= NUMBERS {
        return false;
    }
    RETURNS[number][call] == b'x'
}

// Whether a call is given a writer.
#[tactic(auto, unfolding(crate::specs::Calls::takes_writer, crate::specs::Calls::one_of, crate::specs::Calls::one_more))]
pub fn takes_writer(call: usize) -> bool
    ensures { result ≡ takes_writer call }
{
    matches!(
        call,
        BEGIN | BEGIN_WIDE | ABORT | WRITE | COMMIT | READ | PREPARE | CONFIRM | WITHDRAW
    )
}

// Whether a call is given a page.
#[tactic(auto, unfolding(crate::specs::Calls::takes_page, crate::specs::Calls::one_of, crate::specs::Calls::one_more))]
pub fn takes_page(call: usize) -> bool
    ensures { result ≡ takes_page call }
{
    matches!(call, RECALL | WRITE | CONSOLIDATE | READ)
}

// Whether a call is given a line.
#[tactic(auto, unfolding(crate::specs::Calls::takes_line, crate::specs::Calls::one_of, crate::specs::Calls::one_more))]
pub fn takes_line(call: usize) -> bool
    ensures { result ≡ takes_line call }
{
    matches!(call, RECALL | WRITE | READ)
}

// Whether a number says that a writer stands in the way.
#[tactic(auto, unfolding(crate::specs::Calls::meets_writer, crate::specs::Calls::one_of, crate::specs::Calls::one_more))]
pub fn meets_writer(number: usize) -> bool
    ensures { result ≡ meets_writer number }
{
    matches!(number, 14 | 18)
}

// Puts text at byte at. A loop: `copy_from_slice` of a text that is looked up calls memmove, which a game need not have.
pub fn put_text(out: &mut [u8], at: usize, text: &[u8]) -> usize
    requires { at + length text.now ≤ length out.old }
    ensures { Put out.old at text.now out.new result }
{
    let n = text.len();
    for k in 0..n {
        out[at + k] = text[k];
    }
    at + n
}

// The name of a call.
fn name_of(call: usize) -> &'static [u8]
    requires { call < call_count }
    ensures { result.now ≡ name_of call }
{
    NAMES[call]
}

// The text of a number.
fn text_of(number: usize) -> &'static [u8]
    requires { number < number_count }
    ensures { result.now ≡ text_of number }
{
    TEXTS[number]
}

// Puts the name of a call.
pub fn put_name(out: &mut [u8], at: usize, call: usize) -> usize
    requires { (call < call_count) × (at + 12 ≤ length out.old) }
    ensures { Put out.old at (name_of call) out.new result }
{
    put_text(out, at, name_of(call))
}

// Puts the text of a number.
pub fn put_reason(out: &mut [u8], at: usize, number: usize) -> usize
    requires { (number < number_count) × (at + 49 ≤ length out.old) }
    ensures { Put out.old at (text_of number) out.new result }
{
    put_text(out, at, text_of(number))
}

// Whether the name of a call starts with three bytes.
fn starts_with(a: u8, b: u8, d: u8, call: usize) -> bool
    requires { call < call_count }
    ensures { result ≡ starts_with a b d call }
{
    name_of(call).starts_with(&[a, b, d])
}

// The call whose name starts with three bytes, CALLS where none does.
pub fn call_named(a: u8, b: u8, d: u8) -> usize
    ensures { result ≡ call_named a b d }
{
    for call in 0..CALLS {
        if starts_with(a, b, d, call) {
            return call;
        }
    }
    CALLS
}
