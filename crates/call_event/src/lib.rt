// Event, on a state in words.
#![tactic(auto)]

mod finished;
pub mod found;

ghost use Rattle.std.specs.Prelude.{◌≡◌};
ghost use Rattle.refinement.specs.Calls.{event_of};
ghost use Rattle.answers.specs.Answers.{number_of};
ghost use Rattle.state_words.specs.Decoded.{decoded};
ghost use Rattle.op_stores.specs.Started.{Started};

use answers::Answer;
use op_stores::Until;
use state::{Op, Pending};
use state_words::Words;

// Asks for event `kind`: 1 cash in, 2 cash out, 3 bet, 4 won, 5 a count of the meter; and goes on with it as far as is said. It is lent the moduli,
// and does not rely on its caller having checked anything. A call that is turned back changes no word.
pub fn event(
    image: &mut [u8],
    words: &mut Words,
    kind: usize,
    meter: usize,
    amount: u64,
    moduli: &[u64],
    until: Until,
) -> Answer
    ensures started { Started result (decoded words.new) image.new
        (event_of (decoded words.old) image.old moduli.now kind meter amount) image.old until }
    ensures words { (number_of result ≡ 0 → ⊥) → words.new ≡ words.old }
{
    let z = state_words::sizes_in(words);
    let at = state_words::places_in(words);
    let found = found::event_found(image, z, at, words, kind, meter, amount, moduli)?;
    let v = meters::first_number(moduli, kind, meter, found.stored, amount);
    let l = meters::first_meter(kind, meter);
    let line = finished::numbered_line(image, z, found.first, l, v);
    let second = finished::second_line(image, z, found.own, kind, meter, amount, moduli);
    let op = Op::Event {
        kind,
        meter,
        amount,
    };
    let p = Pending {
        op,
        made: 0,
        line,
        second,
    };
    op_stores::start(image, z, at, words, p, until)
}
