// The calls that commit in two parts, on a state in words (document 02, L8).
#![tactic(auto)]

mod withdrawing;

ghost use Rattle.std.specs.Prelude.{◌≡◌};
ghost use Rattle.refinement.specs.Calls.{prepare_of, confirm_of};
ghost use Rattle.answers.specs.Answers.{number_of};
ghost use Rattle.op_stores.specs.Started.{Started};
ghost use Rattle.state_words.specs.Decoded.{decoded};

use answers::Answer;
use op_stores::Until;
use state::Op;
use state_words::Words;
pub use withdrawing::withdraw;

// Stores the records of a commit and not head: the writer is prepared. A call that is turned back changes no word.
pub fn prepare(image: &mut [u8], words: &mut Words, writer: usize, until: Until) -> Answer
    ensures started { Started result (decoded words.new) image.new
        (prepare_of (decoded words.old) image.old writer) image.old until }
    ensures words { (number_of result ≡ 0 → ⊥) → words.new ≡ words.old }
{
    call_asking::ask_for(image, words, Op::Prepare { writer }, until)
}

// Stores head: the prepared writer's transaction is committed. A call that is turned back changes no word.
pub fn confirm(image: &mut [u8], words: &mut Words, writer: usize, until: Until) -> Answer
    ensures started { Started result (decoded words.new) image.new
        (confirm_of (decoded words.old) image.old writer) image.old until }
    ensures words { (number_of result ≡ 0 → ⊥) → words.new ≡ words.old }
{
    call_asking::ask_for(image, words, Op::Confirm { writer }, until)
}
