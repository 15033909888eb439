// The rows of a call that asks for an operation by the operation's own rows.
ghost use Rattle.std.specs.Prelude.{◌≡◌, ◌++◌};
ghost use Rattle.bounded.specs.Rows.{refusal};
ghost use Rattle.rows.specs.Numbers.{row_of};
ghost use Rattle.operations.specs.Operations.{op_rows};
ghost use Rattle.refinement.specs.Calls.{quiet_rows};
ghost use Rattle.state_words.specs.Decoded.{decoded, places_of};

use layout::Sizes;
use rows::Refusal;
use state::{Op, Places};
use state_words::Words;

// The first of rows 8, 4 and 9 and then of the operation's.
pub fn ask_row(z: Sizes, at: Places, words: &Words, op: Op, n: usize) -> Result<(), Refusal>
    requires { (z ≡ (decoded words.now).sizes) × (at ≡ places_of (decoded words.now)) }
    ensures { row_of result ≡ refusal (quiet_rows (decoded words.now) n ++ op_rows (decoded words.now) op) }
{
    crate::quiet_row(z, at, words, n)?;
    op_rows::op_row(z, at, words, op)
}
