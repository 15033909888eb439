// The slots of a state, in the order in which they are tried.
ghost use Rattle.std.specs.Prelude.{◌≡◌, ◌<◌, ◌≤◌};
ghost use Rattle.layout.specs.Layout.{Legal};
ghost use Rattle.state.specs.Slots.{round_slot};

use layout::Sizes;

// The slot k places on from next, going round.
pub fn round_slot(z: Sizes, next: usize, k: usize) -> usize
    requires { Legal z × (next < z.slots) × (k ≤ z.slots) }
    ensures { result ≡ round_slot z next k }
{
    (next + k) % z.slots
}
