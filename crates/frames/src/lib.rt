// Where the copies of a line lie.
#![tactic(auto)]

ghost use Rattle.std.specs.Prelude.{◌≡◌, ◌<◌};
ghost use Rattle.refinement.specs.Frames.{committed_frame, other_frame};

use journal::Slot;

// The frame with the committed copy of line l of a slot's page.
pub fn committed_frame(t: Slot, l: usize) -> usize
    requires { l < 64 }
    ensures { result ≡ committed_frame t l }
{
    if masks::has(t.bitmap, l) {
        return t.spare;
    }
    t.original
}

// The frame that has not the committed copy of line l, which a write goes to.
pub fn other_frame(t: Slot, l: usize) -> usize
    requires { l < 64 }
    ensures { result ≡ other_frame t l }
{
    if masks::has(t.bitmap, l) {
        return t.original;
    }
    t.spare
}
