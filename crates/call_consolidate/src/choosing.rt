// The slot to free, of a state in words: taken, with no held line, and of those the one that needs the fewest lines copied, the lower one on a tie.
ghost use Rattle.std.specs.Prelude.{◌≡◌, ◌<◌, ◌≤◌};
ghost use Rattle.bounded.specs.Below.{least_turn};
ghost use Rattle.layout.specs.Layout.{Legal};
ghost use Rattle.refinement.specs.Freeing.{may_free, lines_to_copy, slot_to_free};
ghost use Rattle.state_words.specs.Decoded.{decoded};

use layout::Sizes;
use state_words::Words;

// Whether slot s is taken and no line of it is held.
fn may_free(words: &Words, s: usize) -> bool
    requires { s < 16 }
    ensures { result ≡ may_free (decoded words.now).table.page (decoded words.now).writers.held s }
{
    let p = state_words::page_at(words, s);
    (p != journal::NO_PAGE) & !state_held::held::some_hold(words, s)
}

// The better one of slot s and the best of those below it, which is s itself where none of them may be freed. Where s may not
// either, the answer is s + 1.
fn better(words: &Words, s: usize, best: usize) -> usize
    requires { (s < 16) × (best ≤ s) }
    ensures { result ≡ least_turn (may_free (decoded words.now).table.page (decoded words.now).writers.held)
        (lines_to_copy (decoded words.now).table.bitmap) s best }
{
    let may = may_free(words, s);
    if best == s {
        if may {
            return s;
        }
        return s + 1;
    }
    let a = state_words::bitmap_at(words, s);
    let b = state_words::bitmap_at(words, best);
    if may & (needs::copy_count(a) < needs::copy_count(b)) {
        return s;
    }
    best
}

// The slot to free, S where there is none.
pub(crate) fn slot_to_free(z: Sizes, words: &Words) -> usize
    requires { Legal z }
    ensures { result ≡ slot_to_free z (decoded words.now).table.page (decoded words.now).table.bitmap
        (decoded words.now).writers.held }
{
    let mut best = 0;
    for s in 0..z.slots {
        best = better(words, s, best);
    }
    best
}
