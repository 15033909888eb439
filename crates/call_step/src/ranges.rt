// The next store of what is pending with its range, for a host that makes stores durable by ranges of words.
ghost use Rattle.state_words.specs.Decoded.{decoded};
ghost use Rattle.call_step.specs.NextStore.{TellsRange};

use crate::NextStore;
use rows::Refusal;
use state_words::Words;

// What next_store tells; how many stores, from that one on, go to words side by side; and how many are left in all.
#[derive(Clone, Copy)]
pub struct NextRange {
    pub next: NextStore,
    pub beside: usize,
    pub left: usize,
}

// Returns the next store and its range.
pub fn next_range(image: &[u8], words: &Words) -> Result<NextRange, Refusal>
    ensures { TellsRange result (decoded words.now) image.now }
{
    let z = state_words::sizes_in(words);
    let at = state_words::places_in(words);
    call_rows::busy_row(z, at, words, image.len())?;
    let a = op_stores::look_ahead(image, z, at, words);
    let next = NextStore {
        at: a.at,
        decides: a.before == 0,
        before: a.before,
    };
    Ok(NextRange {
        next,
        beside: a.beside,
        left: a.left,
    })
}
