// The export of librecalling.a: the function of crate recalling that has its name, with its promise.
#![tactic(auto)]

ghost use Rattle.std.specs.Prelude.{◌≡◌};
ghost use Rattle.refinement.specs.Recall.{recall_row, recall_bytes};

// The committed line of a page into the target's start, or the number of the first row that turns it back.
#[unsafe(no_mangle)]
pub extern "C" fn recall(page: usize, line: usize, image: &[u8], target: &mut [u8]) -> usize
    ensures number { result ≡ recall_row image.now page line target.old }
    ensures bytes { target.new ≡ recall_bytes image.now page line target.old }
{
    recalling::recall(page, line, image, target)
}
