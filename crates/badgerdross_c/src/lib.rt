// The exports of libbadgerdross.a: each is the function of crate badgerdross that has its name, with its promise. A crate is a library or a static library, and
// of a library no function is exported.
#![tactic(auto)]

ghost use Rattle.std.specs.Prelude.{cond, ◌≡◌, eqb, length};
ghost use Rattle.badgerdross.specs.Left.{Leaves, Starts, Keeps, until_by, sizes_by, version, Plays, room_by};
ghost use Rattle.badgerdross.specs.Told.{Tells, reason_by, read_number, read_refusal};
ghost use Rattle.call_mount.specs.Replacing.{replacing};
ghost use Rattle.call_round.specs.Round.{round_of};
ghost use Rattle.layout.specs.Layout.{sizes_ok, image_length};
ghost use Rattle.reason_reading.specs.Reading.{read_back};
ghost use Rattle.reasons.specs.Sentence.{compose_row, composed_in, sentence};
ghost use Rattle.refinement.specs.Calls.{event_of, load_of, step_of, step_bytes, step_row, run_of, run_bytes, consolidate_of, free_of, checkpoint_of, begin_of, begin_wide_of, abort_of, write_of, commit_of, prepare_of, confirm_of, withdraw_of, read_row, read_bytes, world_of};
ghost use Rattle.refinement.specs.Mount.{format_of, mount_call};
ghost use Rattle.refinement.specs.Recall.{recall_row, recall_bytes};
ghost use Rattle.state_words.specs.Decoded.{decoded};

use state_words::Words;

// The version of the header that the library goes with.
#[unsafe(no_mangle)]
pub extern "C" fn badgerdross_version() -> usize
    ensures { result ≡ version }
{
    badgerdross::badgerdross_version()
}

// How many bytes an image of these sizes has, or 0.
#[unsafe(no_mangle)]
pub extern "C" fn badgerdross_image_length(
    pages: usize,
    slots: usize,
    places: usize,
    entries: usize,
) -> usize
    ensures { result ≡ cond (sizes_ok (sizes_by pages slots places entries)) (image_length (sizes_by pages slots places entries)) 0 }
{
    badgerdross::badgerdross_image_length(pages, slots, places, entries)
}

// Asks for a fresh image.
#[unsafe(no_mangle)]
pub extern "C" fn badgerdross_format(
    words: &mut Words,
    image: &mut [u8],
    pages: usize,
    slots: usize,
    places: usize,
    entries: usize,
    until: usize,
) -> usize
    ensures state { Starts result (decoded words.new) image.new
        (replacing (decoded words.old) (format_of (sizes_by pages slots places entries) image.old)) image.old (until_by until) }
    ensures words { Keeps result words.new words.old }
{
    badgerdross::badgerdross_format(words, image, pages, slots, places, entries, until)
}

// Mounts an image.
#[unsafe(no_mangle)]
pub extern "C" fn badgerdross_mount(words: &mut Words, image: &[u8]) -> usize
    ensures state { Leaves result (decoded words.new) (replacing (decoded words.old) (mount_call image.now)) }
    ensures words { Keeps result words.new words.old }
{
    badgerdross::badgerdross_mount(words, image)
}

// Shows the committed bytes of a line.
#[unsafe(no_mangle)]
pub extern "C" fn badgerdross_recall(
    page: usize,
    line: usize,
    image: &[u8],
    target: &mut [u8],
) -> usize
    ensures number { result ≡ recall_row image.now page line target.old }
    ensures bytes { target.new ≡ recall_bytes image.now page line target.old }
{
    badgerdross::badgerdross_recall(page, line, image, target)
}

// Moves the meters of an event.
#[unsafe(no_mangle)]
pub extern "C" fn badgerdross_event(
    words: &mut Words,
    image: &mut [u8],
    kind: usize,
    meter: usize,
    amount: u64,
    moduli: &[u64],
    until: usize,
) -> usize
    ensures state { Starts result (decoded words.new) image.new
        (event_of (decoded words.old) image.old moduli.now kind meter amount) image.old (until_by until) }
    ensures words { Keeps result words.new words.old }
{
    badgerdross::events::badgerdross_event(words, image, kind, meter, amount, moduli, until)
}

// Reads a venue's moduli from a text. A call that is turned back leaves the moduli lent as they are.
#[unsafe(no_mangle)]
pub extern "C" fn badgerdross_load(
    words: &Words,
    image: &[u8],
    text: &[u8],
    moduli: &mut [u64; 24],
) -> usize
    ensures number { result ≡ (load_of (decoded words.now) image.now text.now).number }
    ensures moduli { moduli.new ≡
        cond (eqb result 0) (load_of (decoded words.now) image.now text.now).moduli moduli.old }
{
    badgerdross::events::badgerdross_load(words, image, text, moduli)
}

// Makes one store.
#[unsafe(no_mangle)]
pub extern "C" fn badgerdross_step(words: &mut Words, image: &mut [u8]) -> usize
    ensures state { Leaves result (decoded words.new) (step_of (decoded words.old) image.old) }
    ensures bytes { image.new ≡ step_bytes (decoded words.old) image.old }
    ensures words { Keeps result words.new words.old }
{
    badgerdross::pending::badgerdross_step(words, image)
}

// Makes at most so many stores, and says how many. A call that is turned back leaves the number lent as it is.
#[unsafe(no_mangle)]
pub extern "C" fn badgerdross_run(
    words: &mut Words,
    image: &mut [u8],
    stores: usize,
    made: &mut usize,
) -> usize
    ensures state { Leaves result (decoded words.new) (run_of (decoded words.old) image.old stores) }
    ensures bytes { image.new ≡ run_bytes (decoded words.old) image.old stores }
    ensures words { Keeps result words.new words.old }
    ensures made { made.new ≡
        cond (eqb result 0) (run_of (decoded words.old) image.old stores).stores made.old }
{
    badgerdross::pending::badgerdross_run(words, image, stores, made)
}

// Tells of the next store and of its range (`struct badgerdross_next`). A call that is turned back leaves the numbers lent as they are.
#[unsafe(no_mangle)]
pub extern "C" fn badgerdross_next_store(
    words: &Words,
    image: &[u8],
    next: &mut [usize; 5],
) -> usize
    ensures number { result ≡ step_row (decoded words.now) image.now }
    ensures told { result ≡ 0 → Tells (decoded words.now) image.now next.new }
    ensures kept { Keeps result next.new next.old }
{
    badgerdross::pending::badgerdross_next_store(words, image, next)
}

// Consolidates a page.
#[unsafe(no_mangle)]
pub extern "C" fn badgerdross_consolidate(
    words: &mut Words,
    image: &mut [u8],
    page: usize,
    until: usize,
) -> usize
    ensures state { Starts result (decoded words.new) image.new
        (consolidate_of (decoded words.old) image.old page) image.old (until_by until) }
    ensures words { Keeps result words.new words.old }
{
    badgerdross::room::badgerdross_consolidate(words, image, page, until)
}

// Consolidates the page whose slot is freed by the fewest copies.
#[unsafe(no_mangle)]
pub extern "C" fn badgerdross_free_slot(words: &mut Words, image: &mut [u8], until: usize) -> usize
    ensures state { Starts result (decoded words.new) image.new
        (free_of (decoded words.old) image.old) image.old (until_by until) }
    ensures words { Keeps result words.new words.old }
{
    badgerdross::room::badgerdross_free_slot(words, image, until)
}

// Empties the journal.
#[unsafe(no_mangle)]
pub extern "C" fn badgerdross_checkpoint(words: &mut Words, image: &mut [u8], until: usize) -> usize
    ensures state { Starts result (decoded words.new) image.new
        (checkpoint_of (decoded words.old) image.old) image.old (until_by until) }
    ensures words { Keeps result words.new words.old }
{
    badgerdross::room::badgerdross_checkpoint(words, image, until)
}

// Opens a writer.
#[unsafe(no_mangle)]
pub extern "C" fn badgerdross_begin(words: &mut Words, writer: usize) -> usize
    ensures state { Leaves result (decoded words.new) (begin_of (decoded words.old) writer) }
    ensures words { Keeps result words.new words.old }
{
    badgerdross::round::badgerdross_begin(words, writer)
}

// Opens a writer for a round wider than the slots.
#[unsafe(no_mangle)]
pub extern "C" fn badgerdross_begin_wide(words: &mut Words, writer: usize) -> usize
    ensures state { Leaves result (decoded words.new) (begin_wide_of (decoded words.old) writer) }
    ensures words { Keeps result words.new words.old }
{
    badgerdross::round::badgerdross_begin_wide(words, writer)
}

// Closes a writer; its held lines are dropped.
#[unsafe(no_mangle)]
pub extern "C" fn badgerdross_abort(words: &mut Words, writer: usize) -> usize
    ensures state { Leaves result (decoded words.new) (abort_of (decoded words.old) writer) }
    ensures words { Keeps result words.new words.old }
{
    badgerdross::round::badgerdross_abort(words, writer)
}

// Writes all of the data.
#[unsafe(no_mangle)]
pub extern "C" fn badgerdross_write(
    words: &mut Words,
    image: &mut [u8],
    writer: usize,
    page: usize,
    line: usize,
    offset: usize,
    data: &[u8],
    until: usize,
) -> usize
    ensures state { Starts result (decoded words.new) image.new
        (write_of (decoded words.old) image.old writer page line offset (length «data».now) «data».now)
        image.old (until_by until) }
    ensures words { Keeps result words.new words.old }
{
    badgerdross::round::badgerdross_write(words, image, writer, page, line, offset, data, until)
}

// Reads a line as a writer sees it.
#[unsafe(no_mangle)]
pub extern "C" fn badgerdross_read(
    words: &Words,
    image: &[u8],
    writer: usize,
    page: usize,
    line: usize,
    target: &mut [u8],
) -> usize
    ensures number { result ≡ read_row (decoded words.now) image.now writer page line target.old }
    ensures bytes { target.new ≡ read_bytes (decoded words.now) image.now writer page line target.old }
{
    badgerdross::round::badgerdross_read(words, image, writer, page, line, target)
}

// Commits.
#[unsafe(no_mangle)]
pub extern "C" fn badgerdross_commit(
    words: &mut Words,
    image: &mut [u8],
    writer: usize,
    until: usize,
) -> usize
    ensures state { Starts result (decoded words.new) image.new
        (commit_of (decoded words.old) image.old writer) image.old (until_by until) }
    ensures words { Keeps result words.new words.old }
{
    badgerdross::round::badgerdross_commit(words, image, writer, until)
}

// Stores the records of a commit.
#[unsafe(no_mangle)]
pub extern "C" fn badgerdross_prepare(
    words: &mut Words,
    image: &mut [u8],
    writer: usize,
    until: usize,
) -> usize
    ensures state { Starts result (decoded words.new) image.new
        (prepare_of (decoded words.old) image.old writer) image.old (until_by until) }
    ensures words { Keeps result words.new words.old }
{
    badgerdross::round::badgerdross_prepare(words, image, writer, until)
}

// Commits what is prepared.
#[unsafe(no_mangle)]
pub extern "C" fn badgerdross_confirm(
    words: &mut Words,
    image: &mut [u8],
    writer: usize,
    until: usize,
) -> usize
    ensures state { Starts result (decoded words.new) image.new
        (confirm_of (decoded words.old) image.old writer) image.old (until_by until) }
    ensures words { Keeps result words.new words.old }
{
    badgerdross::round::badgerdross_confirm(words, image, writer, until)
}

// Lets a prepared round go on.
#[unsafe(no_mangle)]
pub extern "C" fn badgerdross_withdraw(words: &mut Words, image: &[u8], writer: usize) -> usize
    ensures state { Leaves result (decoded words.new) (withdraw_of (decoded words.old) image.now writer) }
    ensures words { Keeps result words.new words.old }
{
    badgerdross::round::badgerdross_withdraw(words, image, writer)
}

// Composes the sentence of a refusal (`struct badgerdross_refusal`) at the start of target, and gives its length.
#[unsafe(no_mangle)]
pub extern "C" fn badgerdross_sentence(
    words: &Words,
    refusal: &[usize; 8],
    target: &mut [u8],
    count: &mut usize,
) -> usize
    ensures number { result ≡ compose_row (reason_by (decoded words.now) refusal.now) (length target.old) }
    ensures bytes { target.new ≡ composed_in (reason_by (decoded words.now) refusal.now) target.old }
    ensures count { count.new ≡
        cond (eqb result 0) (length (sentence (reason_by (decoded words.now) refusal.now))) count.old }
{
    badgerdross::service::badgerdross_sentence(words, refusal, target, count)
}

// Reads a sentence back. Any other text is 11, and leaves the numbers lent as they are.
#[unsafe(no_mangle)]
pub extern "C" fn badgerdross_reading(text: &[u8], refusal: &mut [usize; 8]) -> usize
    ensures number { result ≡ read_number (read_back text.now) }
    ensures refusal { refusal.new ≡ read_refusal (read_back text.now) refusal.old }
{
    badgerdross::service::badgerdross_reading(text, refusal)
}

// Plays a round: begin, writes, a commit, each run to its end. Puts down which of them gave the number.
#[unsafe(no_mangle)]
pub extern "C" fn badgerdross_round(
    words: &mut Words,
    image: &mut [u8],
    writer: usize,
    writes: &[u64],
    data: &[u8],
    room: usize,
    call: &mut usize,
) -> usize
    ensures round { Plays result (decoded words.new) image.new call.new
        (round_of (room_by room) writer writes.now «data».now (world_of (decoded words.old) image.old)) }
{
    badgerdross::whole::badgerdross_round(words, image, writer, writes, data, room, call)
}
