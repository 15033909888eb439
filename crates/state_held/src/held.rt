// The lines that writers hold, and a wide transaction beside them.
ghost use Rattle.std.specs.Prelude.{◌≡◌, ◌<◌, ◌≤◌, length};
ghost use Rattle.bounded.specs.Below.{all_below};
ghost use Rattle.layout.specs.Layout.{Legal};
ghost use Rattle.entries.specs.Entries.{entry_of, key_right, entries_ok};
ghost use Rattle.state.specs.Held.{holder_ok, held_ok, others_hold, some_hold, held_slots};
ghost use Rattle.state.specs.Wide.{wide_of, some_open, alone_open, none_held, wide_ok};
ghost use Rattle.state_words.specs.Decoded.{decoded};

use layout::Sizes;
use state::Places;
use state_words::{Words, held_at, key_at, open_at, page_at};

// Whether a writer is open.
pub fn some_open(words: &Words) -> bool
    ensures { result ≡ some_open (decoded words.now).writers.opened }
{
    let a = open_at(words, 0);
    let b = open_at(words, 1);
    let c = open_at(words, 2);
    let d = open_at(words, 3);
    a | b | c | d
}

// Whether a writer holds a line of slot s: one test of all four, with no branch between them.
pub fn some_hold(words: &Words, s: usize) -> bool
    requires { s < 16 }
    ensures { result ≡ some_hold (decoded words.now).writers.held s }
{
    let a = held_at(words, 0, s);
    let b = held_at(words, 1, s);
    let c = held_at(words, 2, s);
    let d = held_at(words, 3, s);
    (a != 0) | (b != 0) | (c != 0) | (d != 0)
}

// Whether what writer w holds of slot s keeps the rules.
fn holder_ok(words: &Words, free: bool, s: usize, w: usize) -> bool
    requires { (s < 16) × (w < 4) }
    ensures { result ≡ holder_ok (decoded words.now).writers.opened (decoded words.now).writers.held free s w }
{
    let m = held_at(words, w, s);
    if m == 0 {
        return true;
    }
    (0..w).all(|v| masks::are_disjoint(m, held_at(words, v, s))) && open_at(words, w) & !free
}

// The same of the four writers. Of most slots nothing is held.
fn slot_held_ok(words: &Words, free: bool, s: usize) -> bool
    requires { s < 16 }
    ensures { result ≡ all_below 4 (holder_ok (decoded words.now).writers.opened (decoded words.now).writers.held free s) }
{
    !some_hold(words, s) || (0..4).all(|w| holder_ok(words, free, s, w))
}

// Whether no line is held twice, for a closed writer or in a free slot.
pub fn held_ok(z: Sizes, words: &Words) -> bool
    requires { Legal z }
    ensures { result ≡ held_ok z (decoded words.now).table.page (decoded words.now).writers.opened
        (decoded words.now).writers.held }
{
    (0..z.slots).all(|s| slot_held_ok(words, page_at(words, s) == journal::NO_PAGE, s))
}

// Whether a writer other than w holds line l of slot s.
pub fn others_hold(words: &Words, w: usize, s: usize, l: usize) -> bool
    requires { (s < 16) × (l < 64) }
    ensures { result ≡ others_hold (decoded words.now).writers.held w s l }
{
    (0..4).any(|v| (v != w) & masks::has(held_at(words, v, s), l))
}

// How many slots writer w holds lines of.
pub fn held_count(z: Sizes, words: &Words, w: usize) -> usize
    requires { Legal z × (w < 4) }
    ensures { result ≡ length (held_slots z (decoded words.now).writers.held w) }
{
    (0..z.slots).filter(|&s| held_at(words, w, s) != 0).count()
}

// Whether writer w is open and no other is.
fn alone_open(words: &Words, w: usize) -> bool
    ensures { result ≡ alone_open (decoded words.now).writers.opened w }
{
    (0..4).all(|v| {
        let open = open_at(words, v);
        (open & (v == w)) | (!open & (v != w))
    })
}

// Whether no line is held.
fn none_held(z: Sizes, words: &Words) -> bool
    requires { Legal z }
    ensures { result ≡ none_held z (decoded words.now).writers.held }
{
    (0..z.slots).all(|s| !some_hold(words, s))
}

// The first of n entries with this key, or n where there is none.
pub fn find_entry(words: &Words, n: usize, key: u64) -> usize
    requires { n ≤ 64 }
    ensures { result ≡ entry_of (decoded words.now).wide.keys n key }
{
    for e in 0..n {
        if key_at(words, e) == key {
            return e;
        }
    }
    n
}

// Whether entry e is one of a page, and of a line that no entry before it has.
fn key_right(z: Sizes, words: &Words, e: usize) -> bool
    requires { e < 64 }
    ensures { result ≡ key_right z (decoded words.now).wide.keys e }
{
    let key = key_at(words, e);
    let first = find_entry(words, e, key);
    let page = (key / 64) as usize;
    (page < z.pages) & (first == e)
}

// Whether n entries are at most L, and each is right.
fn entries_ok(z: Sizes, words: &Words, n: usize) -> bool
    requires { Legal z }
    ensures { result ≡ entries_ok z (decoded words.now).wide.keys n }
{
    n <= z.entries && (0..n).all(|e| key_right(z, words, e))
}

// Whether the entries are right, and a wide writer is open, not prepared, and beside no held line and no other open writer.
pub fn wide_ok(z: Sizes, at: Places, words: &Words) -> bool
    requires { Legal z }
    ensures { result ≡ wide_ok z (decoded words.now).writers.opened (decoded words.now).writers.held
        at.prepared (wide_of at.wide at.count (decoded words.now).wide.keys) }
{
    if !entries_ok(z, words, at.count) {
        return false;
    }
    if at.wide > 3 {
        return true;
    }
    if !alone_open(words, at.wide) {
        return false;
    }
    (at.prepared != at.wide) & none_held(z, words)
}
