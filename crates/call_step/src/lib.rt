// Step makes one store of what is pending; run makes at most k; next_store tells of the next one.
#![tactic(auto)]

mod ranges;
mod telling;

ghost use Rattle.std.specs.Prelude.{◌≡◌};
ghost use Rattle.refinement.specs.Calls.{step_of, step_bytes, run_of, run_bytes};
ghost use Rattle.answers.specs.Answers.{number_of, answered_at};
ghost use Rattle.state_words.specs.Decoded.{decoded};

use answers::Answer;
pub use ranges::{NextRange, next_range};
use state_words::Words;
pub use telling::{NextStore, next_store};

// Makes at most k stores, and says how many it made. A call that is turned back changes no word.
pub fn run(image: &mut [u8], words: &mut Words, k: usize) -> Answer
    ensures outcome { answered_at result (decoded words.new) ≡ run_of (decoded words.old) image.old k }
    ensures bytes { image.new ≡ run_bytes (decoded words.old) image.old k }
    ensures words { (number_of result ≡ 0 → ⊥) → words.new ≡ words.old }
{
    let z = state_words::sizes_in(words);
    let at = state_words::places_in(words);
    call_rows::busy_row(z, at, words, image.len())?;
    let n = bounded::smaller(k, op_stores::left_in(z, at, words));
    op_stores::go(image, z, at, words, n);
    Ok(n)
}

// Makes one store.
pub fn step(image: &mut [u8], words: &mut Words) -> Answer
    ensures outcome { answered_at result (decoded words.new) ≡ step_of (decoded words.old) image.old }
    ensures bytes { image.new ≡ step_bytes (decoded words.old) image.old }
    ensures words { (number_of result ≡ 0 → ⊥) → words.new ≡ words.old }
{
    run(image, words, 1)
}
