// The next store of what is pending, told before it is made.
ghost use Rattle.state_words.specs.Decoded.{decoded};
ghost use Rattle.call_step.specs.NextStore.{TellsStore};

use rows::Refusal;
use state_words::Words;

// The word that the next store goes to, whether it decides, and how many stores come before the next one that decides.
#[derive(Clone, Copy)]
pub struct NextStore {
    pub at: usize,
    pub decides: bool,
    pub before: usize,
}

// Returns where the next store goes and whether it decides. A host whose memory keeps no order fences before and after each one that decides.
pub fn next_store(image: &[u8], words: &Words) -> Result<NextStore, Refusal>
    ensures { TellsStore result (decoded words.now) image.now }
{
    let told = crate::next_range(image, words)?;
    Ok(told.next)
}
