// Row 19: the room that is left in the journal.
ghost use Rattle.std.specs.Prelude.{◌≡◌, ◌*◌, ◌<◌, ◌≤◌};
ghost use Rattle.layout.specs.Layout.{Legal};
ghost use Rattle.journal.specs.Records.{live_count};
ghost use Rattle.operations.specs.Operations.{journal_full_of};

use layout::Sizes;

// Whether there is none for one new record.
pub fn no_room(z: Sizes, head: usize, tail: usize) -> bool
    requires { Legal z × (head < 2 * z.places) × (tail < 2 * z.places) × (live_count z head tail ≤ z.places) }
    ensures { result ≡ journal_full_of z head tail 1 }
{
    z.places < journal::records::live_count(z, head, tail) + 1
}
