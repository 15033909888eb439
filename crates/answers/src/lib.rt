// Answers: what a taken call needs or made, or the row that turns it back.
#![tactic(auto)]

ghost use Rattle.std.specs.Prelude.{◌≡◌};
ghost use Rattle.answers.specs.Answers.{number_of};

use rows::Refusal;

// A taken call says how many stores it needs or made; a refused one names the first rule that it breaks.
pub type Answer = Result<usize, Refusal>;

// The number of an answer: 0 where the call is taken, else that of the row.
pub fn number_of(a: Answer) -> usize
    ensures { result ≡ number_of a }
{
    match a {
        Ok(_) => 0,
        Err(row) => usize::from(row),
    }
}
