// Room: for slots by consolidation, for the journal by a checkpoint.
ghost use Rattle.std.specs.Prelude.{◌≡◌};
ghost use Rattle.refinement.specs.Calls.{consolidate_of, free_of, checkpoint_of};
ghost use Rattle.state_words.specs.Decoded.{decoded};
ghost use Rattle.badgerdross.specs.Left.{Starts, Keeps, until_by};

use state_words::Words;

// Consolidates a page.
#[unsafe(no_mangle)]
pub extern "C" fn badgerdross_consolidate(
    words: &mut Words,
    image: &mut [u8],
    page: usize,
    until: usize,
) -> usize
    ensures state { Starts result (decoded words.new) image.new
        (consolidate_of (decoded words.old) image.old page) image.old (until_by until) }
    ensures words { Keeps result words.new words.old }
{
    let u = crate::until_of(until);
    answers::number_of(call_consolidate::consolidate(image, words, page, u))
}

// Consolidates the page whose slot is freed by the fewest copies.
#[unsafe(no_mangle)]
pub extern "C" fn badgerdross_free_slot(words: &mut Words, image: &mut [u8], until: usize) -> usize
    ensures state { Starts result (decoded words.new) image.new
        (free_of (decoded words.old) image.old) image.old (until_by until) }
    ensures words { Keeps result words.new words.old }
{
    let u = crate::until_of(until);
    answers::number_of(call_consolidate::free_slot(image, words, u))
}

// Empties the journal.
#[unsafe(no_mangle)]
pub extern "C" fn badgerdross_checkpoint(words: &mut Words, image: &mut [u8], until: usize) -> usize
    ensures state { Starts result (decoded words.new) image.new
        (checkpoint_of (decoded words.old) image.old) image.old (until_by until) }
    ensures words { Keeps result words.new words.old }
{
    let u = crate::until_of(until);
    answers::number_of(call_checkpoint::checkpoint(image, words, u))
}
