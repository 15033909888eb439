// Withdraw: the transaction goes on. No stores.
ghost use Rattle.std.specs.Prelude.{◌≡◌};
ghost use Rattle.answers.specs.Answers.{number_of, answered_at};
ghost use Rattle.refinement.specs.Calls.{withdraw_of};
ghost use Rattle.state_words.specs.Decoded.{decoded};

use answers::Answer;
use state::Op;
use state_words::Words;

// No writer is prepared. It is turned back by the rows of a confirm, and then changes no word.
pub fn withdraw(image: &[u8], words: &mut Words, writer: usize) -> Answer
    ensures state { answered_at result (decoded words.new) ≡ withdraw_of (decoded words.old) image.now writer }
    ensures words { (number_of result ≡ 0 → ⊥) → words.new ≡ words.old }
{
    let z = state_words::sizes_in(words);
    let at = state_words::places_in(words);
    call_rows::asking::ask_row(z, at, words, Op::Confirm { writer }, image.len())?;
    state_words::put_prepared(words, state::NO_WRITER);
    Ok(0)
}
