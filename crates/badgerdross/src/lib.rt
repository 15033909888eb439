// The store for a host in C: the calls on the words that the host keeps, with the names and forms of include/badgerdross.h. Each returns its number.
// Exports that differ in a call alone stay apart: the C interface needs a function, with its contract, for each name.
#![tactic(auto)]

pub mod events;
pub mod pending;
pub mod room;
pub mod round;
pub mod service;
pub mod whole;

ghost use Rattle.std.specs.Prelude.{cond, ◌≡◌};
ghost use Rattle.layout.specs.Layout.{sizes_ok, image_length};
ghost use Rattle.refinement.specs.Mount.{format_of, mount_call};
ghost use Rattle.refinement.specs.Recall.{recall_row, recall_bytes};
ghost use Rattle.state_words.specs.Decoded.{decoded};
ghost use Rattle.call_mount.specs.Replacing.{replacing};
ghost use Rattle.badgerdross.specs.Left.{Leaves, Starts, Keeps, until_by, sizes_by, version};

use layout::Sizes;
use op_stores::Until;
use state_words::Words;

// How far an operation is taken: 0 not at all, 1 to before the store that decides, else to its end.
fn until_of(n: usize) -> Until
    ensures { result ≡ until_by n }
{
    match n {
        0 => Until::Asked,
        1 => Until::Fence,
        _ => Until::End,
    }
}

// The version of the header that the library goes with.
#[unsafe(no_mangle)]
pub extern "C" fn badgerdross_version() -> usize
    ensures { result ≡ version }
{
    2000
}

// How many bytes an image of these sizes has, or 0.
#[unsafe(no_mangle)]
pub extern "C" fn badgerdross_image_length(
    pages: usize,
    slots: usize,
    places: usize,
    entries: usize,
) -> usize
    ensures { result ≡ cond (sizes_ok (sizes_by pages slots places entries)) (image_length (sizes_by pages slots places entries)) 0 }
{
    let z = Sizes {
        pages,
        slots,
        places,
        entries,
    };
    if !layout::sizes_ok(z) {
        return 0;
    }
    layout::image_length(z)
}

// Asks for a fresh image.
#[unsafe(no_mangle)]
pub extern "C" fn badgerdross_format(
    words: &mut Words,
    image: &mut [u8],
    pages: usize,
    slots: usize,
    places: usize,
    entries: usize,
    until: usize,
) -> usize
    ensures state { Starts result (decoded words.new) image.new
        (replacing (decoded words.old) (format_of (sizes_by pages slots places entries) image.old)) image.old (until_by until) }
    ensures words { Keeps result words.new words.old }
{
    let z = Sizes {
        pages,
        slots,
        places,
        entries,
    };
    let u = until_of(until);
    answers::number_of(call_mount::format(image, words, z, u))
}

// Mounts an image.
#[unsafe(no_mangle)]
pub extern "C" fn badgerdross_mount(words: &mut Words, image: &[u8]) -> usize
    ensures state { Leaves result (decoded words.new) (replacing (decoded words.old) (mount_call image.now)) }
    ensures words { Keeps result words.new words.old }
{
    answers::number_of(call_mount::mount(image, words))
}

// Shows the committed bytes of a line.
#[unsafe(no_mangle)]
pub extern "C" fn badgerdross_recall(
    page: usize,
    line: usize,
    image: &[u8],
    target: &mut [u8],
) -> usize
    ensures number { result ≡ recall_row image.now page line target.old }
    ensures bytes { target.new ≡ recall_bytes image.now page line target.old }
{
    recalling::recall(page, line, image, target)
}
