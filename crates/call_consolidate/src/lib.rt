// The calls for a consolidation, on a state in words: of a page, and of the slot that is best freed. Neither relies on what its caller checked.
#![tactic(auto)]

mod choosing;

ghost use Rattle.std.specs.Prelude.{◌≡◌, true};
ghost use Rattle.refinement.specs.Calls.{consolidate_of, free_of};
ghost use Rattle.answers.specs.Answers.{number_of};
ghost use Rattle.op_stores.specs.Started.{Started};
ghost use Rattle.validity.specs.Validity.{state_ok};
ghost use Rattle.state_words.specs.Decoded.{decoded, places_of};

use answers::Answer;
use layout::Sizes;
use op_stores::Until;
use rows::Refusal;
use state::{Op, Places};
use state_words::Words;

// Asks for the consolidation of a page, and goes on with it as far as is said. A call that is turned back changes no word.
pub fn consolidate(image: &mut [u8], words: &mut Words, page: usize, until: Until) -> Answer
    ensures started { Started result (decoded words.new) image.new
        (consolidate_of (decoded words.old) image.old page) image.old until }
    ensures words { (number_of result ≡ 0 → ⊥) → words.new ≡ words.old }
{
    let op = Op::Consolidate { page };
    call_asking::ask_for(image, words, op, until)
}

// Frees a slot of a state that row 8 accepts.
pub fn free_valid(image: &mut [u8], z: Sizes, at: Places, words: &mut Words, until: Until) -> Answer
    requires { (z ≡ (decoded words.old).sizes) × (at ≡ places_of (decoded words.old)) × (state_ok (decoded words.old) ≡ true) }
    ensures started { Started result (decoded words.new) image.new
        (free_of (decoded words.old) image.old) image.old until }
    ensures words { (number_of result ≡ 0 → ⊥) → words.new ≡ words.old }
{
    call_rows::valid_row(z, words, image.len())?;
    let s = choosing::slot_to_free(z, words);
    call_rows::free_row(z, at, s)?;
    let page = state_words::page_at(words, s);
    op_stores::ask(image, z, at, words, Op::Consolidate { page }, until)
}

// Asks for the consolidation of the taken slot with no held line that needs the fewest lines copied, and goes on with it as far as is said. A call that is
// turned back changes no word.
pub fn free_slot(image: &mut [u8], words: &mut Words, until: Until) -> Answer
    ensures started { Started result (decoded words.new) image.new
        (free_of (decoded words.old) image.old) image.old until }
    ensures words { (number_of result ≡ 0 → ⊥) → words.new ≡ words.old }
{
    let z = state_words::sizes_in(words);
    let at = state_words::places_in(words);
    if !state_rules::state_ok(z, at, words) {
        return Err(Refusal::BadState);
    }
    free_valid(image, z, at, words, until)
}
