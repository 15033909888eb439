// Whether a state in words is the fresh one of its sizes: what row 8 asks of the state beside a pending format. Places past S and entries past P are not
// compared.
ghost use Rattle.std.specs.Prelude.{◌≡◌, ◌<◌, eqb};
ghost use Rattle.bounded.specs.Below.{all_below};
ghost use Rattle.layout.specs.Layout.{Legal};
ghost use Rattle.state.specs.State.{own_frame};
ghost use Rattle.validity.specs.Validity.{fresh_at, is_fresh};
ghost use Rattle.state_words.specs.Decoded.{decoded};
ghost use Rattle.op_rows.specs.Seen.{seen};

use layout::Sizes;
use state::Places;
use state_words::{MAP, Words};

// Whether slot s is free with the spare that a fresh image has, and has no last position.
fn slot_fresh(z: Sizes, words: &Words, s: usize) -> bool
    requires { Legal z × (s < z.slots) }
    ensures { result ≡ fresh_at z (decoded words.now).table s }
{
    let v = state_words::slot_at(words, s);
    v.page == journal::NO_PAGE
        && v.spare == z.pages + s
        && state_words::last_at(words, s) == replay::NO_POSITION
}

// The same of each slot.
fn slots_fresh(z: Sizes, words: &Words) -> bool
    requires { Legal z }
    ensures { result ≡ all_below z.slots (fresh_at z (decoded words.now).table) }
{
    (0..z.slots).all(|s| slot_fresh(z, words, s))
}

// Whether page i is in frame i, of each page.
fn map_fresh(z: Sizes, words: &Words) -> bool
    requires { Legal z }
    ensures { result ≡ all_below z.pages (λ p. eqb (own_frame (decoded words.now) p) p) }
{
    let _ = state_words::all_words(*words);
    let all = &words[..];
    let end = MAP + z.pages;
    naming::all_own(&all[MAP..end])
}

// Whether the state is fresh: nothing in the journal, no writer open, prepared or wide, no entry used, every slot and the map fresh.
#[tactic(auto, unfolding(validity::specs::Validity::fresh_of))]
pub(crate) fn is_fresh(z: Sizes, at: Places, words: &Words) -> bool
    requires { Legal z }
    ensures { result ≡ is_fresh (seen z at (decoded words.now)) }
{
    at.head == 0
        && at.tail == 0
        && at.next == 0
        && at.count == 0
        && !state_held::held::some_open(words)
        && at.prepared >= 4
        && at.wide >= 4
        && slots_fresh(z, words)
        && map_fresh(z, words)
}
