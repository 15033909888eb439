// Rounds tried on a store of one setting, and what their stores were for (request L11).
#![tactic(auto)]

mod calls;
mod counts;
pub mod rounds;

ghost use Rattle.std.specs.Prelude.{◌≡◌, ℕ, List};
ghost use Rattle.refinement.specs.Calls.{world_of};
ghost use Rattle.state_words.specs.Decoded.{decoded};
ghost use Rattle.trials.specs.Trials.{trial_of, untried, formatted, as_abandoned};

use layout::Sizes;
use state_words::Words;

// The calls that a round makes, all by writer 0; a write puts a byte at the start of a page.
#[derive(Clone, Copy, Debug, PartialEq, Eq)]
pub enum Ask {
    Begin,
    Write { page: usize, byte: u8 },
    Free,
    Checkpoint,
    Commit,
    Abort,
}

// Stores by what they were for.
#[derive(Clone, Copy, Debug, PartialEq, Eq)]
pub struct Spent {
    pub written: u64,
    pub journal: u64,
    pub copies: u64,
    pub tables: u64,
}

// No store.
const NOTHING: Spent = Spent {
    written: 0,
    journal: 0,
    copies: 0,
    tables: 0,
};

// The number of the last call's answer, the stores made and the rounds so far. The store's state and image are lent beside it.
#[derive(Clone, Copy, Debug, PartialEq, Eq)]
pub struct Trial {
    pub number: usize,
    pub spent: Spent,
    pub done: u64,
    pub abandoned: u64,
}

// No call is made yet.
pub fn nothing_tried() -> Trial
    ensures { (words img : List ℕ) → trial_of result words img ≡ untried (world_of (decoded words) img) }
{
    Trial {
        number: 0,
        spent: NOTHING,
        done: 0,
        abandoned: 0,
    }
}

// A store of these sizes, formatted; where format refuses them, its number, and the words stay.
pub fn start(image: &mut [u8], words: &mut Words, z: Sizes) -> Trial
    ensures { trial_of result words.new image.new ≡ formatted z (world_of (decoded words.old) image.old) }
{
    let answer = call_mount::format_whole(image, words, z);
    let mut t = nothing_tried();
    t.number = answers::number_of(answer);
    t
}

// A round that is abandoned unbegun.
pub fn abandon(t: Trial) -> Trial
    ensures { (words img : List ℕ) → trial_of result words img ≡ as_abandoned (trial_of t words img) }
{
    let mut next = t;
    next.abandoned = counts::one_more(t.abandoned);
    next
}
