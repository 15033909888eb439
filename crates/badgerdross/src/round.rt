// A round: begun, written, read, committed or aborted; and a commit in two parts.
ghost use Rattle.std.specs.Prelude.{◌≡◌, length};
ghost use Rattle.refinement.specs.Calls.{begin_of, begin_wide_of, abort_of, write_of, commit_of, prepare_of, confirm_of, withdraw_of, read_row, read_bytes};
ghost use Rattle.state_words.specs.Decoded.{decoded};
ghost use Rattle.badgerdross.specs.Left.{Leaves, Starts, Keeps, until_by};

use call_write::Span;
use state_words::Words;

// Opens a writer.
#[unsafe(no_mangle)]
pub extern "C" fn badgerdross_begin(words: &mut Words, writer: usize) -> usize
    ensures state { Leaves result (decoded words.new) (begin_of (decoded words.old) writer) }
    ensures words { Keeps result words.new words.old }
{
    answers::number_of(call_begin::begin(words, writer))
}

// Opens a writer for a round wider than the slots.
#[unsafe(no_mangle)]
pub extern "C" fn badgerdross_begin_wide(words: &mut Words, writer: usize) -> usize
    ensures state { Leaves result (decoded words.new) (begin_wide_of (decoded words.old) writer) }
    ensures words { Keeps result words.new words.old }
{
    answers::number_of(call_begin::begin_wide(words, writer))
}

// Closes a writer; its held lines are dropped.
#[unsafe(no_mangle)]
pub extern "C" fn badgerdross_abort(words: &mut Words, writer: usize) -> usize
    ensures state { Leaves result (decoded words.new) (abort_of (decoded words.old) writer) }
    ensures words { Keeps result words.new words.old }
{
    answers::number_of(call_begin::abort(words, writer))
}

// Writes all of the data.
#[unsafe(no_mangle)]
pub extern "C" fn badgerdross_write(
    words: &mut Words,
    image: &mut [u8],
    writer: usize,
    page: usize,
    line: usize,
    offset: usize,
    data: &[u8],
    until: usize,
) -> usize
    ensures state { Starts result (decoded words.new) image.new
        (write_of (decoded words.old) image.old writer page line offset (length «data».now) «data».now)
        image.old (until_by until) }
    ensures words { Keeps result words.new words.old }
{
    let span = Span {
        page,
        line,
        offset,
        length: data.len(),
    };
    let u = crate::until_of(until);
    answers::number_of(call_write::write(image, words, writer, span, data, u))
}

// Reads a line as a writer sees it.
#[unsafe(no_mangle)]
pub extern "C" fn badgerdross_read(
    words: &Words,
    image: &[u8],
    writer: usize,
    page: usize,
    line: usize,
    target: &mut [u8],
) -> usize
    ensures number { result ≡ read_row (decoded words.now) image.now writer page line target.old }
    ensures bytes { target.new ≡ read_bytes (decoded words.now) image.now writer page line target.old }
{
    answers::number_of(call_read::read(image, words, writer, page, line, target))
}

// Commits.
#[unsafe(no_mangle)]
pub extern "C" fn badgerdross_commit(
    words: &mut Words,
    image: &mut [u8],
    writer: usize,
    until: usize,
) -> usize
    ensures state { Starts result (decoded words.new) image.new
        (commit_of (decoded words.old) image.old writer) image.old (until_by until) }
    ensures words { Keeps result words.new words.old }
{
    let u = crate::until_of(until);
    answers::number_of(call_commit::commit(image, words, writer, u))
}

// Stores the records of a commit.
#[unsafe(no_mangle)]
pub extern "C" fn badgerdross_prepare(
    words: &mut Words,
    image: &mut [u8],
    writer: usize,
    until: usize,
) -> usize
    ensures state { Starts result (decoded words.new) image.new
        (prepare_of (decoded words.old) image.old writer) image.old (until_by until) }
    ensures words { Keeps result words.new words.old }
{
    let u = crate::until_of(until);
    answers::number_of(call_prepare::prepare(image, words, writer, u))
}

// Commits what is prepared.
#[unsafe(no_mangle)]
pub extern "C" fn badgerdross_confirm(
    words: &mut Words,
    image: &mut [u8],
    writer: usize,
    until: usize,
) -> usize
    ensures state { Starts result (decoded words.new) image.new
        (confirm_of (decoded words.old) image.old writer) image.old (until_by until) }
    ensures words { Keeps result words.new words.old }
{
    let u = crate::until_of(until);
    answers::number_of(call_prepare::confirm(image, words, writer, u))
}

// Lets a prepared round go on.
#[unsafe(no_mangle)]
pub extern "C" fn badgerdross_withdraw(words: &mut Words, image: &[u8], writer: usize) -> usize
    ensures state { Leaves result (decoded words.new) (withdraw_of (decoded words.old) image.now writer) }
    ensures words { Keeps result words.new words.old }
{
    answers::number_of(call_prepare::withdraw(image, words, writer))
}
