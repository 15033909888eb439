// Probe's first state, before any line.
ghost use Rattle.std.specs.Prelude.{◌≡◌};
ghost use Rattle.state_words.specs.Decoded.{decoded};
ghost use Rattle.workbench.specs.Turns.{first_state};

use state_words::{WORD_COUNT, Words};

// Every number is 0, no writer is open, prepared or wide, and nothing is pending.
pub fn put_first(words: &mut Words)
    ensures { decoded words.new ≡ first_state }
{
    *words = [0u64; WORD_COUNT];
    words[state_words::PREPARED] = state_words::NO_WRITER;
    words[state_words::WIDE] = state_words::NO_WRITER;
}
