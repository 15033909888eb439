// The rules of row 7 for the slots of a state and its map: each slot has a shape, its page is that of no slot below it and has the slot's original for its
// frame; and spares and frames of pages name each frame once.
ghost use Rattle.std.specs.Prelude.{◌≡◌, not, ◌<◌, eqb, get_or};
ghost use Rattle.bounded.specs.Below.{all_below};
ghost use Rattle.bounded.specs.Count.{each_once};
ghost use Rattle.layout.specs.Layout.{Legal, frames};
ghost use Rattle.replay.specs.Map.{names_kept};
ghost use Rattle.slot_rules.specs.Slots.{slot_fine, slots_fine};
ghost use Rattle.state.specs.State.{own_frame};
ghost use Rattle.state_words.specs.Decoded.{decoded};

use layout::Sizes;
use state_words::{MAP, SPARE, Words, page_at, slot_at};

// Whether the page of slot s is that of no slot below it.
fn page_apart(words: &Words, s: usize) -> bool
    requires { s < 16 }
    ensures { result ≡ all_below s (λ k. not (eqb (get_or (decoded words.now).table.page s 0) (get_or (decoded words.now).table.page k 0))) }
{
    let p = page_at(words, s);
    (0..s).all(|k| p != page_at(words, k))
}

// Whether slot s has a shape, and as an owning one a page that no slot below it has, with its original for its frame. No branch between the tests of a shape.
fn slot_fine(z: Sizes, words: &Words, s: usize) -> bool
    requires { Legal z × (s < 16) }
    ensures { result ≡ slot_fine (own_frame (decoded words.now)) z (decoded words.now).table s }
{
    let a = slot_at(words, s);
    let f = z.pages + z.slots;
    if a.page == journal::NO_PAGE {
        return (a.original == journal::NO_FRAME) & (a.bitmap == 0) & (a.spare < f);
    }
    (a.page < z.pages) & (a.original < f) & (a.spare < f) & (a.original != a.spare)
        && page_apart(words, s)
        && state_words::entry_at(words, a.page) == a.original
}

// The same of each slot.
fn each_fine(z: Sizes, words: &Words) -> bool
    requires { Legal z }
    ensures { result ≡ all_below z.slots (slot_fine (own_frame (decoded words.now)) z (decoded words.now).table) }
{
    (0..z.slots).all(|s| slot_fine(z, words, s))
}

// Whether the spares and the frames of the pages name each frame once.
fn names_once(z: Sizes, words: &Words) -> bool
    requires { Legal z }
    ensures { result ≡ each_once (frames z) (names_kept (own_frame (decoded words.now)) z (decoded words.now).table) }
{
    let _ = state_words::all_words(*words);
    let all = &words[..];
    let spares = SPARE + z.slots;
    let pages = MAP + z.pages;
    naming::each_once(&all[SPARE..spares], &all[MAP..pages])
}

// Both.
pub fn slots_fine(z: Sizes, words: &Words) -> bool
    requires { Legal z }
    ensures { result ≡ slots_fine (own_frame (decoded words.now)) z (decoded words.now).table }
{
    each_fine(z, words) && names_once(z, words)
}
