// The call that a line asks for.
ghost use Rattle.std.specs.Prelude.{◌≡◌, true};
ghost use Rattle.refinement.specs.Run.{exec};
ghost use Rattle.forms.specs.declared.Ask.TheVariants.{Write};
ghost use Rattle.calling.specs.WriteLine.{has_data};
ghost use Rattle.executing.specs.Called.{call_of, world_at, result_at};

use answers::Answer;
use forms::Ask;
use op_stores::Until;
use state_words::Words;

// The call; the stores that it needs are pending, and none is made.
pub fn ask(image: &mut [u8], words: &mut Words, a: Ask, count: usize, numbers: &[u64; 69]) -> Answer
    requires { a ≡ Write → has_data count numbers.now ≡ true }
    ensures { result_at result words.new image.new
        ≡ exec (call_of a count numbers.now) (world_at words.old image.old) }
{
    let first = numbers[0] as usize;
    match a {
        Ask::Begin => call_begin::begin(words, first),
        Ask::Commit => call_commit::commit(image, words, first, Until::Asked),
        Ask::Abort => call_begin::abort(words, first),
        Ask::Write => calling::write(image, words, count, numbers),
        Ask::Consolidate => call_consolidate::consolidate(image, words, first, Until::Asked),
        Ask::Checkpoint => call_checkpoint::checkpoint(image, words, Until::Asked),
        Ask::Mount => call_mount::mount(image, words),
    }
}
