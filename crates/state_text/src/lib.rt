// The state's numbers, parted by blanks, read from its words.
#![tactic(auto)]

ghost use Rattle.std.specs.Prelude.{ℕ, List, ◌≡◌, ◌+◌, ◌*◌, ◌<◌, ◌≤◌, length};
ghost use Rattle.number_text.specs.Text.{Put, blanked, each};
ghost use Rattle.words.specs.Words.{part};
ghost use Rattle.state_words.specs.Decoded.{decoded};
ghost use Rattle.state_text.specs.Numbers.{slot_numbers, open_numbers, held_numbers, writer_numbers, header_numbers, entry_number, key_number};
ghost use Rattle.state_text.specs.Numbers.{turn_numbers, wide_numbers, places_field, work_numbers, state_field};

use state::held::one_if;
use state_words::Words;
use std::convert::AsSlice;

// The numbers of 0, 1, .. n - 1, at most width of each, every number after a blank.
fn put_each<A: AsSlice<u64> + Drop, F: Fn(usize) -> A>(
    out: &mut [u8],
    at: usize,
    n: usize,
    width: usize,
    numbers: F,
) -> usize
    requires callable { (i : ℕ) → i < n → F.pre numbers i }
    requires narrow { (i : ℕ) (r : _) → i < n → F.post numbers i r → length (A.items r) ≤ width }
    requires room { at + 21 * (width * n) ≤ length out.old }
    ensures { (f : ℕ → List ℕ) → ((i : ℕ) (r : _) → i < n → F.post numbers i r → A.items r ≡ f i) → Put out.old at (blanked (each n f)) out.new result }
{
    let mut next = at;
    for i in 0..n {
        let row = numbers(i);
        next = number_text::put_numbers(out, next, row.as_slice());
    }
    next
}

// ---- slots

// The first n slots.
fn put_slots(out: &mut [u8], at: usize, words: &Words, n: usize) -> usize
    requires { (n ≤ 16) × (at + 1680 ≤ length out.old) }
    ensures { Put out.old at (blanked (each n (slot_numbers (decoded words.now).table))) out.new result }
{
    let numbers = |i: usize|
        requires { i < 16 }
        ensures { result ≡ slot_numbers (decoded words.entry.now).table i }
    {
        let slot = state_words::slot_at(words, i);
        [
            slot.page as u64,
            slot.original as u64,
            slot.spare as u64,
            slot.bitmap,
            state_words::last_at(words, i) as u64,
        ]
    };
    put_each(out, at, n, 5, numbers)
}

// ---- the map

// The first n entries.
fn put_map(out: &mut [u8], at: usize, words: &Words, n: usize) -> usize
    requires { (n ≤ 1024) × (at + 21504 ≤ length out.old) }
    ensures { Put out.old at (blanked (each n (entry_number (decoded words.now).map))) out.new result }
{
    let number = |p: usize|
        requires { p < 1024 }
        ensures { result ≡ entry_number (decoded words.entry.now).map p }
    { [state_words::entry_at(words, p) as u64] };
    put_each(out, at, n, 1, number)
}

// ---- writers

fn open_numbers(words: &Words) -> [u64; 4]
    ensures { result ≡ open_numbers (decoded words.now).writers }
{
    [
        one_if(state_words::open_at(words, 0)) as u64,
        one_if(state_words::open_at(words, 1)) as u64,
        one_if(state_words::open_at(words, 2)) as u64,
        one_if(state_words::open_at(words, 3)) as u64,
    ]
}

// The lines that writer w holds, slot by slot.
fn held_by(words: &Words, w: usize) -> [u64; 16]
    requires { w < 4 }
    ensures row { result ≡ part (decoded words.now).writers.held (16 * w) 16 }
    ensures long { length result ≡ 16 }
{
    let _ = state_words::all_words(*words);
    let mut row = [0u64; 16];
    for s in 0..16 {
        row[s] = state_words::held_at(words, w, s);
    }
    row
}

// Each writer's held lines of the first n slots.
fn put_held(out: &mut [u8], at: usize, words: &Words, n: usize) -> usize
    requires { (n ≤ 16) × (at + 1344 ≤ length out.old) }
    ensures { Put out.old at (blanked (each 4 (held_numbers (decoded words.now).writers.held n))) out.new result }
{
    let mut next = at;
    for w in 0..4 {
        let row = held_by(words, w);
        next = number_text::put_numbers(out, next, &row[..n]);
    }
    next
}

fn put_writers(out: &mut [u8], at: usize, words: &Words, n: usize) -> usize
    requires { (n ≤ 16) × (at + 1428 ≤ length out.old) }
    ensures { Put out.old at (blanked (writer_numbers (decoded words.now).writers n)) out.new result }
{
    let opened = open_numbers(words);
    let next = number_text::put_numbers(out, at, &opened);
    put_held(out, next, words, n)
}

// ---- the prepared writer and the wide transaction

fn turn_numbers(words: &Words) -> [u64; 3]
    ensures { result ≡ turn_numbers (decoded words.now) }
{
    let at = state_words::places_in(words);
    [
        bounded::smaller(at.prepared, 4) as u64,
        bounded::smaller(at.wide, 4) as u64,
        at.count as u64,
    ]
}

// The first n keys.
fn put_keys(out: &mut [u8], at: usize, words: &Words, n: usize) -> usize
    requires { (n ≤ 64) × (at + 1344 ≤ length out.old) }
    ensures { Put out.old at (blanked (each n (key_number (decoded words.now).wide.keys))) out.new result }
{
    let number = |e: usize|
        requires { e < 64 }
        ensures { result ≡ key_number (decoded words.entry.now).wide.keys e }
    { [state_words::key_at(words, e)] };
    put_each(out, at, n, 1, number)
}

fn put_wide(out: &mut [u8], at: usize, words: &Words) -> usize
    requires { at + 1407 ≤ length out.old }
    ensures { Put out.old at (blanked (wide_numbers (decoded words.now))) out.new result }
{
    let places = state_words::places_in(words);
    let n = bounded::smaller(places.count, 64);
    let turn = turn_numbers(words);
    let next = number_text::put_numbers(out, at, &turn);
    put_keys(out, next, words, n)
}

// ---- all of it

fn header_numbers(words: &Words) -> [u64; 6]
    ensures { result ≡ header_numbers (decoded words.now) }
{
    let z = state_words::sizes_in(words);
    let at = state_words::places_in(words);
    [
        z.slots as u64,
        z.places as u64,
        z.entries as u64,
        at.head as u64,
        at.tail as u64,
        at.next as u64,
    ]
}

// P and the header, the slots, the map.
fn put_places(out: &mut [u8], at: usize, words: &Words) -> usize
    requires { at + 23331 ≤ length out.old }
    ensures { Put out.old at (places_field (decoded words.now)) out.new result }
{
    let z = state_words::sizes_in(words);
    let next = number_text::put_after(out, at, b',', z.pages as u64);
    let header = header_numbers(words);
    let next = number_text::put_numbers(out, next, &header);
    let next = put_slots(out, next, words, bounded::smaller(z.slots, 16));
    put_map(out, next, words, bounded::smaller(z.pages, 1024))
}

// The writers, the wide transaction, what is pending.
fn put_work(out: &mut [u8], at: usize, words: &Words) -> usize
    requires { at + 5670 ≤ length out.old }
    ensures { Put out.old at (blanked (work_numbers (decoded words.now))) out.new result }
{
    let z = state_words::sizes_in(words);
    let next = put_writers(out, at, words, bounded::smaller(z.slots, 16));
    let next = put_wide(out, next, words);
    pending_text::put_pending(out, next, words)
}

// At most 1,381 numbers, each of 20 digits after a mark.
pub fn put_state(out: &mut [u8], at: usize, words: &Words) -> usize
    requires { at + 29001 ≤ length out.old }
    ensures { Put out.old at (state_field (decoded words.now)) out.new result }
{
    let next = put_places(out, at, words);
    put_work(out, next, words)
}
