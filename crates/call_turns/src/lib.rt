// What a call's line prints, and how far a call goes on: asked for, or in place.
#![tactic(auto)]

ghost use Rattle.std.specs.Prelude.{◌≡◌, cond};
ghost use Rattle.workbench.specs.Turns.{answer_said};
ghost use Rattle.call_turns.specs.InPlace.{until_by};

use answers::Answer;
use op_stores::Until;
use workbench::Said;

// A call's answer and its stores.
pub fn answered(answer: Answer) -> Said
    ensures { result ≡ answer_said answer }
{
    Said::Answered {
        number: answers::number_of(answer),
        count: calling::stores_of(answer),
    }
}

// In place all stores are made; else none.
pub fn until_by(whole: bool) -> Until
    ensures { result ≡ until_by whole }
{
    if whole { Until::End } else { Until::Asked }
}
