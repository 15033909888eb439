// The rows of the call that makes a slot free.
ghost use Rattle.std.specs.Prelude.{◌≡◌};
ghost use Rattle.bounded.specs.Rows.{refusal};
ghost use Rattle.rows.specs.Numbers.{row_of};
ghost use Rattle.op_rows.specs.Seen.{Low};
ghost use Rattle.call_rows.specs.Free.{free_rows};

use layout::Sizes;
use rows::Refusal;
use state::Places;

// Behind rows 8, 4 and 9, the first row that turns a freeing back, s being the slot that is chosen: 23, 22, 19.
pub fn free_row(z: Sizes, at: Places, s: usize) -> Result<(), Refusal>
    requires { Low z at }
    ensures { row_of result ≡ refusal (free_rows z at s) }
{
    if at.prepared < 4 {
        return Err(Refusal::TransactionPrepared);
    }
    if z.slots <= s {
        return Err(Refusal::NoSlotToFree);
    }
    if op_rows::no_room(z, at.head, at.tail) {
        return Err(Refusal::JournalFull);
    }
    Ok(())
}
