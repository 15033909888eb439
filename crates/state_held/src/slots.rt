// Reading the slots of a state in words: the slot of a page, and the first free one.
ghost use Rattle.std.specs.Prelude.{◌≡◌, ◌<◌};
ghost use Rattle.layout.specs.Layout.{Legal};
ghost use Rattle.state.specs.Slots.{slot_of_page, free_after};
ghost use Rattle.state_words.specs.Decoded.{decoded};

use layout::Sizes;
use state_words::{Words, page_at};

// The slot of page p, or S where it has none.
pub fn slot_of(z: Sizes, words: &Words, p: usize) -> usize
    requires { Legal z }
    ensures { result ≡ slot_of_page z (decoded words.now).table.page p }
{
    for s in 0..z.slots {
        if page_at(words, s) == p {
            return s;
        }
    }
    z.slots
}

// How many places on from next the first free slot lies, or S where none is free.
pub fn free_after(z: Sizes, words: &Words, next: usize) -> usize
    requires { Legal z × (next < z.slots) }
    ensures { result ≡ free_after z (decoded words.now).table.page next }
{
    for k in 0..z.slots {
        let s = state::slots::round_slot(z, next, k);
        if page_at(words, s) == journal::NO_PAGE {
            return k;
        }
    }
    z.slots
}
