// The call for a checkpoint, on a state in words. It relies on nothing that its caller checked.
#![tactic(auto)]

ghost use Rattle.std.specs.Prelude.{◌≡◌};
ghost use Rattle.refinement.specs.Calls.{checkpoint_of};
ghost use Rattle.answers.specs.Answers.{number_of};
ghost use Rattle.op_stores.specs.Started.{Started};
ghost use Rattle.state_words.specs.Decoded.{decoded};

use answers::Answer;
use op_stores::Until;
use state::Op;
use state_words::Words;

// Asks for a checkpoint, and goes on with it as far as is said. A call that is turned back changes no word.
pub fn checkpoint(image: &mut [u8], words: &mut Words, until: Until) -> Answer
    ensures started { Started result (decoded words.new) image.new
        (checkpoint_of (decoded words.old) image.old) image.old until }
    ensures words { (number_of result ≡ 0 → ⊥) → words.new ≡ words.old }
{
    call_asking::ask_for(image, words, Op::Checkpoint, until)
}
