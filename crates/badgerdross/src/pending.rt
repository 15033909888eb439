// The pending operation: stepped, run, and what its next store is.
ghost use Rattle.std.specs.Prelude.{cond, ◌≡◌, eqb};
ghost use Rattle.answers.specs.Answers.{number_of};
ghost use Rattle.refinement.specs.Calls.{step_of, step_bytes, step_row, run_of, run_bytes};
ghost use Rattle.state_words.specs.Decoded.{decoded};
ghost use Rattle.badgerdross.specs.Left.{Leaves, Keeps};
ghost use Rattle.badgerdross.specs.Told.{Tells};

use state_words::Words;

// Makes one store.
#[unsafe(no_mangle)]
pub extern "C" fn badgerdross_step(words: &mut Words, image: &mut [u8]) -> usize
    ensures state { Leaves result (decoded words.new) (step_of (decoded words.old) image.old) }
    ensures bytes { image.new ≡ step_bytes (decoded words.old) image.old }
    ensures words { Keeps result words.new words.old }
{
    answers::number_of(call_step::step(image, words))
}

// Makes at most so many stores, and says how many. A call that is turned back leaves the number lent as it is.
#[unsafe(no_mangle)]
pub extern "C" fn badgerdross_run(
    words: &mut Words,
    image: &mut [u8],
    stores: usize,
    made: &mut usize,
) -> usize
    ensures state { Leaves result (decoded words.new) (run_of (decoded words.old) image.old stores) }
    ensures bytes { image.new ≡ run_bytes (decoded words.old) image.old stores }
    ensures words { Keeps result words.new words.old }
    ensures made { made.new ≡
        cond (eqb result 0) (run_of (decoded words.old) image.old stores).stores made.old }
{
    let a = call_step::run(image, words, stores);
    let n = answers::number_of(a);
    if n != 0 {
        return n;
    }
    *made = calling::stores_of(a);
    0
}

// Tells of the next store and of its range (`struct badgerdross_next`). A call that is turned back leaves the numbers lent as they are.
#[unsafe(no_mangle)]
pub extern "C" fn badgerdross_next_store(
    words: &Words,
    image: &[u8],
    next: &mut [usize; 5],
) -> usize
    ensures number { result ≡ step_row (decoded words.now) image.now }
    ensures told { result ≡ 0 → Tells (decoded words.now) image.now next.new }
    ensures kept { Keeps result next.new next.old }
{
    match call_step::next_range(image, words) {
        Ok(range) => {
            let told = range.next;
            let decides = state::held::one_if(told.decides);
            *next = [told.at, range.beside, decides, told.before, range.left];
            0
        }
        Err(row) => usize::from(row),
    }
}
