// A call on a state in words that asks for an operation by the operation's own rows.
#![tactic(auto)]

ghost use Rattle.std.specs.Prelude.{◌≡◌, Bool, true, false, ℕ, length};
ghost use Rattle.operations.specs.Operations.{is_idle};
ghost use Rattle.validity.specs.Validity.{op_fits};
ghost use Rattle.answers.specs.Answers.{number_of};
ghost use Rattle.call_asking.specs.Asking.{asked_of};
ghost use Rattle.op_stores.specs.Started.{Started};
ghost use Rattle.state_words.specs.Decoded.{decoded};

use answers::Answer;
use op_stores::Until;
use state::Op;
use state_words::Words;

// Asks for an operation that fits whichever writer is wide, and goes on with it as far as is said. A call that is turned back changes no word.
pub fn ask_for(image: &mut [u8], words: &mut Words, op: Op, until: Until) -> Answer
    requires { (is_idle op ≡ false) × ((wide : ℕ) (fresh : Bool) → op_fits wide fresh op ≡ true) }
    ensures started { Started result (decoded words.new) image.new
        (asked_of (decoded words.old) (length image.old) op op) image.old until }
    ensures words { (number_of result ≡ 0 → ⊥) → words.new ≡ words.old }
{
    let z = state_words::sizes_in(words);
    let at = state_words::places_in(words);
    call_rows::asking::ask_row(z, at, words, op, image.len())?;
    op_stores::ask(image, z, at, words, op, until)
}
