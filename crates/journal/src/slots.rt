// A slot's three words and its shape.
ghost use Rattle.std.specs.Prelude.{◌≡◌, ◌+◌, ◌*◌, ◌^◌, ◌≤◌, ◌<◌, length};
ghost use Rattle.layout.specs.Layout.{Legal};
ghost use Rattle.words.specs.Words.{word};
ghost use Rattle.journal.specs.Slots.{slot_from, word_of_slot, free_slot, shaped};

use crate::{HALF, NO_FRAME, NO_PAGE, Slot};
use layout::Sizes;

// The slot in the three words from word a on.
pub fn slot_from(image: &[u8], a: usize) -> Slot
    requires { 8 * a + 24 ≤ length image.now }
    ensures { result ≡ slot_from (word image.now) a }
{
    let page = image_words::read_word(image, a);
    let frames = image_words::read_word(image, a + 1);
    let bitmap = image_words::read_word(image, a + 2);
    Slot {
        page: page as usize,
        original: (frames % HALF) as usize,
        spare: (frames / HALF) as usize,
        bitmap,
    }
}

// The k-th of a slot's three words.
pub fn word_of_slot(t: Slot, k: usize) -> u64
    requires { (t.original < 2 ^ 32) × (t.spare < 2 ^ 32) }
    ensures { result ≡ word_of_slot t k }
{
    match k {
        0 => t.page as u64,
        1 => t.original as u64 + HALF * t.spare as u64,
        _ => t.bitmap,
    }
}

// The free slot with spare f.
pub fn free_slot(f: usize) -> Slot
    ensures { result ≡ free_slot f }
{
    Slot {
        page: NO_PAGE,
        original: NO_FRAME,
        spare: f,
        bitmap: 0,
    }
}

// Whether a slot is owning or free.
pub fn is_shaped(z: Sizes, t: Slot) -> bool
    requires { Legal z }
    ensures { result ≡ shaped z t }
{
    let f = z.pages + z.slots;
    ((t.page < z.pages) & (t.original < f) & (t.spare < f) & (t.original != t.spare))
        | ((t.page == NO_PAGE) & (t.original == NO_FRAME) & (t.bitmap == 0) & (t.spare < f))
}
