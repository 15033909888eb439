// What the type of the words says of the state that they are: the lengths of its arrays, and the ranges of its masks.
ghost use Rattle.std.specs.Prelude.{ℕ, ◌^◌, ◌<◌, slice_index};
ghost use Rattle.call_round.specs.Kept.{SizedAt};

use state_words::Words;

fn count(words: &[u64]) -> usize {
    words.len()
}

// Each is below 2^64: the logic tells it of a slice that is passed on.
fn all_low(words: &[u64]) -> usize
    ensures { (i : ℕ) → slice_index words.now i < 2 ^ 64 }
{
    count(words)
}

// The logic knows the length of an array by value, and not of a lent one. The copy is not made.
pub(crate) fn words_sized(words: Words) -> usize
    ensures { SizedAt words }
{
    let _ = state_words::all_words(words);
    all_low(&words)
}
