// T: a number of the state becomes v, by the field's number f and the place i.
#![tactic(auto)]

ghost use Rattle.std.specs.Prelude.{◌≡◌, ◌<◌, ◌≤◌, true};
ghost use Rattle.state_words.specs.Decoded.{decoded, with_table};
ghost use Rattle.workbench.specs.Turns.{turn_at};
ghost use Rattle.state_edits.specs.Edits.{with_size_at, with_sizes, is_single, with_single, single_turn, with_slot_number, slot_turn, open_turn, held_turn};
ghost use Rattle.state_edits.specs.Edits.{entry_turn, key_turn, placed_turn, field_turn, number_turn};

use state_words::{BITMAP, LAST, ORIGINAL, PAGE, SIZES, SPARE, Words};
use text::Line;
use workbench::{Said, edited, numbers};

// P, S, J, L.
fn put_size(words: &mut Words, k: usize, v: usize)
    requires { k ≤ 3 }
    ensures { decoded words.new ≡ with_sizes (decoded words.old) (with_size_at (decoded words.old).sizes k v) }
{
    let _ = state_words::all_words(*words);
    words[SIZES + k] = v as u64;
}

// The fields that have one number.
fn put_single(words: &mut Words, f: usize, v: usize)
    requires { is_single f ≡ true }
    ensures { decoded words.new ≡ with_single (decoded words.old) f v }
{
    let at = state_words::places_in(words);
    match f {
        0 => put_size(words, 0, v),
        1 => put_size(words, 1, v),
        2 => put_size(words, 2, v),
        3 => state_words::put_head(words, v),
        4 => state_words::put_tail(words, v),
        5 => state_words::put_next(words, v),
        14 => state_words::put_prepared(words, v),
        15 => state_words::put_wide(words, v, at.count),
        16 => state_words::put_wide(words, at.wide, v),
        _ => put_size(words, 3, v),
    }
}

// Fields 6 to 10 of slot i: page, original, spare, bitmap, last position.
fn put_slot_number(words: &mut Words, f: usize, i: usize, v: usize)
    requires { (5 < f) × (f ≤ 10) × (i < 16) }
    ensures { decoded words.new ≡ with_table (decoded words.old) (with_slot_number (decoded words.old).table f i v) }
{
    match f {
        6 => words[PAGE + i] = v as u64,
        7 => words[ORIGINAL + i] = v as u64,
        8 => words[SPARE + i] = v as u64,
        9 => words[BITMAP + i] = v as u64,
        _ => words[LAST + i] = v as u64,
    }
}

fn set_single(words: &mut Words, f: usize, i: usize, v: usize) -> Option<Said>
    requires { is_single f ≡ true }
    ensures { turn_at result words.new ≡ single_turn (decoded words.old) f i v }
{
    if i != 0 {
        return None;
    }
    put_single(words, f, v);
    Some(edited())
}

// An original and a spare have 32 bits.
fn set_slot(words: &mut Words, f: usize, i: usize, v: usize) -> Option<Said>
    requires { (5 < f) × (f ≤ 10) }
    ensures { turn_at result words.new ≡ slot_turn (decoded words.old) f i v }
{
    if (i > 15) | ((f == 7) | (f == 8)) & (v >= 4294967296) {
        return None;
    }
    put_slot_number(words, f, i, v);
    Some(edited())
}

// Field 11: writer i open or not.
fn set_open(words: &mut Words, i: usize, v: usize) -> Option<Said>
    ensures { turn_at result words.new ≡ open_turn (decoded words.old) i v }
{
    if (i > 3) | (v > 1) {
        return None;
    }
    state_words::put_open(words, i, v == 1);
    Some(edited())
}

// Field 12: held lines, at 16 × writer + slot.
fn set_held(words: &mut Words, i: usize, v: usize) -> Option<Said>
    ensures { turn_at result words.new ≡ held_turn (decoded words.old) i v }
{
    if i > 63 {
        return None;
    }
    state_words::put_held(words, i / 16, i % 16, v as u64);
    Some(edited())
}

// Field 13: the map's entry of page i, of 16 bits.
fn set_entry(words: &mut Words, i: usize, v: usize) -> Option<Said>
    ensures { turn_at result words.new ≡ entry_turn (decoded words.old) i v }
{
    if (i > 1023) | (v > 65535) {
        return None;
    }
    state_words::put_entry(words, i, v);
    Some(edited())
}

// Field 17: key i of the wide transaction.
fn set_key(words: &mut Words, i: usize, v: usize) -> Option<Said>
    ensures { turn_at result words.new ≡ key_turn (decoded words.old) i v }
{
    if i > 63 {
        return None;
    }
    state_words::put_key(words, i, v as u64);
    Some(edited())
}

// The fields that have a place.
fn set_placed(words: &mut Words, f: usize, i: usize, v: usize) -> Option<Said>
    ensures { turn_at result words.new ≡ placed_turn (decoded words.old) f i v }
{
    match f {
        6..=10 => set_slot(words, f, i, v),
        11 => set_open(words, i, v),
        12 => set_held(words, i, v),
        13 => set_entry(words, i, v),
        17 => set_key(words, i, v),
        _ => None,
    }
}

fn set_field(words: &mut Words, f: usize, i: usize, v: usize) -> Option<Said>
    ensures { turn_at result words.new ≡ field_turn (decoded words.old) f i v }
{
    match f {
        0..=5 | 14..=16 | 18 => set_single(words, f, i, v),
        _ => set_placed(words, f, i, v),
    }
}

pub fn set_number(words: &mut Words, line: Line) -> Option<Said>
    ensures { turn_at result words.new ≡ number_turn (decoded words.old) line }
{
    let [f, i, v] = numbers::<3>(line)?;
    set_field(words, f as usize, i as usize, v as usize)
}
