// The slots as a mount makes them: the slot table, then the live records.
#![tactic(auto)]

ghost use Rattle.std.specs.Prelude.{◌≡◌, true, ◌+◌, ◌*◌, ◌≤◌, ◌<◌, length};
ghost use Rattle.layout.specs.Layout.{Legal, image_length};
ghost use Rattle.words.specs.Words.{word};
ghost use Rattle.journal.specs.Records.{live_record, records_ok};
ghost use Rattle.replay.specs.Table.{slot_in, with_slot, empty_table, table_from, replay, slots_shaped, page_apart, pages_apart};

use journal::Slot;
use layout::Sizes;

// What stands for the position of a slot without a live record: 2^64 - 1.
pub const NO_POSITION: usize = usize::MAX;

// Up to 16 slots, and for each the position of its last live record, or none.
#[derive(Clone, Copy, Debug, PartialEq, Eq)]
pub struct Table {
    pub page: [usize; 16],
    pub original: [usize; 16],
    pub spare: [usize; 16],
    pub bitmap: [u64; 16],
    pub last: [usize; 16],
}

// Slot s of a table.
pub fn slot_at(t: &Table, s: usize) -> Slot
    requires { s < 16 }
    ensures { result ≡ slot_in t.now s }
{
    Slot {
        page: t.page[s],
        original: t.original[s],
        spare: t.spare[s],
        bitmap: t.bitmap[s],
    }
}

// The same of a table that goes by value.
pub fn slot_in(t: Table, s: usize) -> Slot
    requires { s < 16 }
    ensures { result ≡ slot_in t s }
{
    slot_at(&t, s)
}

// Puts v as slot s of a table.
pub fn put_slot(t: &mut Table, s: usize, v: Slot)
    requires { s < 16 }
    ensures { t.new ≡ with_slot t.old s v }
{
    t.page[s] = v.page;
    t.original[s] = v.original;
    t.spare[s] = v.spare;
    t.bitmap[s] = v.bitmap;
}

// A table with nothing in it.
pub fn empty_table() -> Table
    ensures { result ≡ empty_table }
{
    Table {
        page: [0; 16],
        original: [0; 16],
        spare: [0; 16],
        bitmap: [0; 16],
        last: [NO_POSITION; 16],
    }
}

// The slot table of an image.
fn table_from(image: &[u8], z: Sizes) -> Table
    requires { Legal z × (image_length z ≤ length image.now) }
    ensures { result ≡ table_from (word image.now) z }
{
    let mut t = empty_table();
    for s in 0..z.slots {
        put_slot(
            &mut t,
            s,
            journal::slots::slot_from(image, layout::slot_word(z, s)),
        );
    }
    t
}

// The slot table with the n live records, which are right, laid over it in order.
pub fn replayed(image: &[u8], z: Sizes, tail: usize, n: usize) -> Table
    requires { Legal z × (image_length z ≤ length image.now) × (tail < 2 * z.places) × (n ≤ z.places)
        × (records_ok z tail n (live_record (word image.now) z tail) ≡ true) }
    ensures { result ≡ replay z tail n (live_record (word image.now) z tail) (table_from (word image.now) z) }
{
    let mut t = table_from(image, z);
    for i in 0..n {
        let e = journal::records::live_record(image, z, tail, i);
        put_slot(&mut t, e.slot, e.now);
        t.last[e.slot] = journal::records::position(z, tail, i);
    }
    t
}

// Whether each slot has a shape.
pub fn slots_shaped(z: Sizes, t: &Table) -> bool
    requires { Legal z }
    ensures { result ≡ slots_shaped z t.now }
{
    for s in 0..z.slots {
        if !journal::slots::is_shaped(z, slot_at(t, s)) {
            return false;
        }
    }
    true
}

// Whether page p, of slot s, is in no slot below s.
fn page_apart(page: &[usize; 16], s: usize) -> bool
    requires { s < 16 }
    ensures { result ≡ page_apart page.now s }
{
    let p = page[s];
    p == journal::NO_PAGE || !page[..s].contains(&p)
}

// Whether no page is in two slots.
pub fn pages_apart(z: Sizes, page: &[usize; 16]) -> bool
    requires { Legal z }
    ensures { result ≡ pages_apart z page.now }
{
    for s in 0..z.slots {
        if !page_apart(page, s) {
            return false;
        }
    }
    true
}
