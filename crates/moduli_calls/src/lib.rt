// K and l: an event, which is lent the moduli, and a load, which gives them.
#![tactic(auto)]

pub mod loading;

ghost use Rattle.std.specs.Prelude.{◌≡◌};
ghost use Rattle.state_words.specs.Decoded.{decoded};
ghost use Rattle.workbench.specs.Turns.{turn_at};
ghost use Rattle.moduli_calls.specs.Calls.{event_turn};

use call_turns::answered;
use op_stores::Until;
use state_words::Words;
use text::Line;
use workbench::moduli::Moduli;
use workbench::{Said, numbers};

// It is asked for, and no byte changes.
pub fn event(image: &mut [u8], words: &mut Words, table: Moduli, line: Line) -> Option<Said>
    ensures turn { turn_at result words.new ≡ event_turn (decoded words.old) image.old table line }
    ensures bytes { image.new ≡ image.old }
{
    let [kind, meter, amount] = numbers::<3>(line)?; // K,kind,meter,amount
    let answer = call_event::event(
        image,
        words,
        kind as usize,
        meter as usize,
        amount,
        table.lent(),
        Until::Asked,
    );
    Some(answered(answer))
}
