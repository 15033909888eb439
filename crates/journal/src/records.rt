// Positions and live records.
ghost use Rattle.std.specs.Prelude.{◌≡◌, ◌+◌, ◌*◌, ◌^◌, ◌≤◌, ◌<◌, length};
ghost use Rattle.layout.specs.Layout.{Legal, image_length};
ghost use Rattle.words.specs.Words.{word};
ghost use Rattle.journal.specs.Records.{position, live_count, positions_ok, record_from, word_of_record, live_record, record_right, records_ok};

use crate::{HALF, Record, slots};
use layout::Sizes;

// The position i after from, without a division: their sum is below 4J.
pub fn position(z: Sizes, from: usize, i: usize) -> usize
    requires { Legal z × (from < 2 * z.places) × (i ≤ z.places) }
    ensures { result ≡ position z from i }
{
    let sum = from + i;
    if sum < 2 * z.places {
        return sum;
    }
    sum - 2 * z.places
}

// How many records are live, without a division: head and tail are below 2J.
pub fn live_count(z: Sizes, head: usize, tail: usize) -> usize
    requires { Legal z × (head < 2 * z.places) × (tail < 2 * z.places) }
    ensures { result ≡ live_count z head tail }
{
    if head < tail {
        return head + 2 * z.places - tail;
    }
    head - tail
}

// Whether head and tail are positions with at most J live ones between them (row 5).
pub fn positions_ok(z: Sizes, head: usize, tail: usize) -> bool
    requires { Legal z }
    ensures { result ≡ positions_ok z head tail }
{
    head < 2 * z.places && tail < 2 * z.places && live_count(z, head, tail) <= z.places
}

// The record in the four words from word a on.
pub fn record_from(image: &[u8], a: usize) -> Record
    requires { 8 * a + 32 ≤ length image.now }
    ensures { result ≡ record_from (word image.now) a }
{
    let w = image_words::read_word(image, a);
    let now = slots::slot_from(image, a + 1);
    Record {
        first: (w % HALF) as usize,
        slot: (w / HALF) as usize,
        now,
    }
}

// The k-th of a record's four words.
pub fn word_of_record(e: Record, k: usize) -> u64
    requires { (e.first < 2 ^ 32) × (e.slot < 2 ^ 32) × (e.now.original < 2 ^ 32) × (e.now.spare < 2 ^ 32) }
    ensures { result ≡ word_of_record e k }
{
    if k == 0 {
        return e.first as u64 + HALF * e.slot as u64;
    }
    slots::word_of_slot(e.now, k - 1)
}

// The i-th live record.
#[tactic(auto, unfolding(crate::specs::Records::live_record))]
pub fn live_record(image: &[u8], z: Sizes, tail: usize, i: usize) -> Record
    requires { Legal z × (image_length z ≤ length image.now) × (tail < 2 * z.places) × (i ≤ z.places) }
    ensures { result ≡ live_record (word image.now) z tail i }
{
    let q = position(z, tail, i);
    let a = layout::record_word(z, q);
    record_from(image, a)
}

// Whether the i-th live record, at position own, is right: its slot is one of the S, its "first" is its own position
// or its predecessor's with a higher slot, and its slot words have a shape.
fn record_ok(z: Sizes, own: usize, i: usize, before: Record, e: Record) -> bool
    requires { Legal z }
    ensures { result ≡ record_right z own i before e }
{
    (e.slot < z.slots)
        & ((e.first == own) | ((i != 0) & (e.first == before.first) & (before.slot < e.slot)))
        & slots::is_shaped(z, e.now)
}

// Whether each of the n live records is right (row 6). The first one has no record before it and is held to itself.
pub fn records_ok(image: &[u8], z: Sizes, tail: usize, n: usize) -> bool
    requires { Legal z × (image_length z ≤ length image.now) × (tail < 2 * z.places) × (n ≤ z.places) }
    ensures { result ≡ records_ok z tail n (live_record (word image.now) z tail) }
{
    let mut before = live_record(image, z, tail, 0);
    for i in 0..n {
        let own = position(z, tail, i);
        let e = live_record(image, z, tail, i);
        if !record_ok(z, own, i, before, e) {
            return false;
        }
        before = e;
    }
    true
}
