// The twelve calls by their numbers.
ghost use Rattle.std.specs.Prelude.{[], ◌∷◌};
ghost use Rattle.refinement.specs.Run.{write};
ghost use Rattle.sequence_runs.specs.Calls.{call_of};
ghost use Rattle.sequence_runs.specs.Turns.{CameOf};

use answers::Answer;
use call_write::Span;
use op_stores::Until;
use state_words::Words;

// A write of one byte to the start of a line of page 0.
fn write_first(image: &mut [u8], words: &mut Words, writer: usize, line: usize, byte: u8) -> Answer
    ensures { CameOf (write writer 0 line 0 1 (byte ∷ [])) words.old image.old result words.new image.new }
{
    let bytes = [byte];
    let span = Span {
        page: 0,
        line,
        offset: 0,
        length: 1,
    };
    call_write::write(image, words, writer, span, &bytes, Until::Asked)
}

// The call of number c, its stores not yet made.
pub fn ask(image: &mut [u8], words: &mut Words, c: u64) -> Answer
    ensures { CameOf (call_of c) words.old image.old result words.new image.new }
{
    match c {
        1 => call_begin::begin(words, 0),
        2 => call_begin::begin(words, 1),
        3 => write_first(image, words, 0, 0, 1),
        4 => write_first(image, words, 0, 1, 1),
        5 => write_first(image, words, 1, 0, 2),
        6 => write_first(image, words, 1, 1, 2),
        7 => call_commit::commit(image, words, 0, Until::Asked),
        8 => call_commit::commit(image, words, 1, Until::Asked),
        9 => call_begin::abort(words, 0),
        10 => call_begin::abort(words, 1),
        11 => call_consolidate::consolidate(image, words, 0, Until::Asked),
        _ => call_checkpoint::checkpoint(image, words, Until::Asked),
    }
}
