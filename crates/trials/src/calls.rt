// The calls of a round, each run to its end.
ghost use Rattle.std.specs.Prelude.{[], ◌∷◌};
ghost use Rattle.refinement.specs.Run.{write};
ghost use Rattle.trials.specs.Trials.{call_of, Finishes};

use crate::Ask;
use answers::Answer;
use call_write::Span;
use op_stores::Until;
use state_words::Words;

// A write of one byte to the start of a page.
fn write_first(image: &mut [u8], words: &mut Words, page: usize, byte: u8) -> Answer
    ensures { Finishes (write 0 page 0 0 1 (byte ∷ [])) words.old image.old result words.new image.new }
{
    let bytes = [byte];
    let span = Span {
        page,
        line: 0,
        offset: 0,
        length: 1,
    };
    call_write::write(image, words, 0, span, &bytes, Until::End)
}

// The call, and all the stores that it needs.
pub fn call(image: &mut [u8], words: &mut Words, a: Ask) -> Answer
    ensures { Finishes (call_of a) words.old image.old result words.new image.new }
{
    match a {
        Ask::Begin => call_begin::begin(words, 0),
        Ask::Write { page, byte } => write_first(image, words, page, byte),
        Ask::Free => call_consolidate::free_slot(image, words, Until::End),
        Ask::Checkpoint => call_checkpoint::checkpoint(image, words, Until::End),
        Ask::Commit => call_commit::commit(image, words, 0, Until::End),
        Ask::Abort => call_begin::abort(words, 0),
    }
}
