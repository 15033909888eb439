// What the stores of an operation count for, by their numbers: no store is looked at by itself.
ghost use Rattle.std.specs.Prelude.{◌≡◌, ◌-◌, ◌<◌, min, length, if◌then◌else◌, nat_eq};
ghost use Rattle.bounded.specs.Below.{count_below};
ghost use Rattle.layout.specs.Layout.{Legal};
ghost use Rattle.wear.specs.Shares.{part_at, copy_at, wear_at, Rising, format_ends, ends_at, asked_ends, frame_of, counted};

use forms::Ask;
use layout::Sizes;

// The number of the first store past each part, the parts in the order in which they are stored to: a format's header, tables, journal and padding;
// frames, from this one on; a word of a table, a record. What follows is the header's.
#[derive(Clone, Copy)]
pub struct Ends {
    pub header: usize,
    pub tables: usize,
    pub journal: usize,
    pub padding: usize,
    pub frames: usize,
    pub words: usize,
    pub records: usize,
    pub frame: usize,
}

// How many of the numbers below n are from a on and below b.
fn between(n: usize, a: usize, b: usize) -> usize
    ensures { result ≡ min n b - a }
{
    let end = bounded::smaller(n, b);
    if end <= a { 0 } else { end - a }
}

// The stores among the first n that go to a part.
fn stores_to(e: Ends, part: usize, n: usize) -> usize
    requires { Rising e }
    ensures { result ≡ count_below n (λ i. nat_eq (part_at e i) part) }
{
    match part {
        0 => between(n, e.padding, e.frames),
        1 => between(n, 0, e.header) + between(n, e.records, n),
        2 => between(n, e.header, e.tables) + between(n, e.frames, e.words),
        3 => between(n, e.tables, e.journal) + between(n, e.words, e.records),
        4 => between(n, e.journal, e.padding),
        _ => 0,
    }
}

// The line copies of a frame that are whole with the first n.
fn copies_to(e: Ends, frame: usize, n: usize) -> usize
    requires { Rising e × (frame < 15) }
    ensures { result ≡ count_below n (λ i. copy_at e frame i) }
{
    if frame < e.frame {
        return 0;
    }
    let from = e.padding + 512 * (frame - e.frame);
    let to = bounded::smaller(e.frames, from + 512);
    let end = bounded::smaller(n, to);
    if end <= from { 0 } else { (end - from) / 8 }
}

// All n, where a test holds, else none.
fn stores_if(test: bool, n: usize) -> usize
    ensures { result ≡ (if test then n else 0) }
{
    if test { n } else { 0 }
}

// How many of the first n count for number k.
fn worn(e: Ends, written: bool, n: usize, k: usize) -> usize
    requires { Rising e }
    ensures { result ≡ count_below n (λ i. wear_at e written i k) }
{
    if k < 15 {
        return copies_to(e, k, n);
    }
    if k < 20 {
        return stores_to(e, k - 15, n);
    }
    if k == 20 {
        return stores_if(!written, n);
    }
    stores_if(written, n)
}

// Counts the first n stores.
pub fn count(counts: &mut [u64], e: Ends, written: bool, n: usize)
    requires { (length counts.old ≡ 22) × Rising e }
    ensures { counts.new ≡ counted e written n counts.old }
{
    for k in 0..22 {
        counts[k] = counts[k].wrapping_add(worn(e, written, n, k) as u64);
    }
}

// What is left of a after b.
fn left(a: usize, b: usize) -> usize
    ensures { result ≡ a - b }
{
    a.saturating_sub(b)
}

// The frame of a word.
pub fn frame_of(z: Sizes, at: usize) -> usize
    requires { Legal z }
    ensures { result ≡ frame_of z at }
{
    left(at, layout::frame_word(z)) / 512
}

// A format's.
pub fn format_ends(z: Sizes) -> Ends
    requires { Legal z }
    ensures { result ≡ format_ends z }
{
    let end = layout::entry_word(z, z.entries);
    Ends {
        header: 8,
        tables: layout::slot_word(z, z.slots),
        journal: layout::padding_word(z),
        padding: layout::frame_word(z),
        frames: end,
        words: end,
        records: end,
        frame: 0,
    }
}

// Those of an operation whose stores to frames come first.
fn ends_at(frame: usize, frames: usize, words: usize, records: usize) -> Ends
    ensures { result ≡ ends_at frame frames words records }
{
    Ends {
        header: 0,
        tables: 0,
        journal: 0,
        padding: 0,
        frames,
        words,
        records,
        frame,
    }
}

// A call's that needs n stores, the first of them to this frame where it goes to one.
pub fn asked_ends(a: Ask, n: usize, frame: usize) -> Ends
    ensures { result ≡ asked_ends a n frame }
{
    let last = left(n, 1);
    match a {
        Ask::Begin => ends_at(frame, 0, 0, 0),
        Ask::Commit => ends_at(frame, 0, 0, last),
        Ask::Abort => ends_at(frame, 0, 0, 0),
        Ask::Write => ends_at(frame, n, n, n),
        Ask::Consolidate => ends_at(frame, left(n, 6), left(n, 5), last),
        Ask::Checkpoint => ends_at(frame, 0, last, last),
        Ask::Mount => ends_at(frame, 0, 0, 0),
    }
}
