// The rows of an event from 29 on, in the order of document 02, L2.
ghost use Rattle.std.specs.Prelude.{◌≡◌, true, ◌<◌};
ghost use Rattle.bounded.specs.Rows.{refusal};
ghost use Rattle.rows.specs.Numbers.{row_of};
ghost use Rattle.layout.specs.Layout.{Legal};
ghost use Rattle.meters.specs.Meters.{event_known};
ghost use Rattle.state.specs.declared.Op.TheVariants.{Event};
ghost use Rattle.operations.specs.Operations.{op_rows};
ghost use Rattle.state_words.specs.Decoded.{decoded};
ghost use Rattle.op_rows.specs.Seen.{Low, seen, event_next_rows_in};

use crate::{no_room, writing};
use layout::Sizes;
use rows::Refusal;
use state::Places;
use state_words::Words;

// The first row from 12 to 15 that turns a known event back, with the slot s of page 0, S where it has none.
pub fn event_next_row(
    z: Sizes,
    at: Places,
    words: &Words,
    kind: usize,
    meter: usize,
    s: usize,
) -> Result<(), Refusal>
    requires { Legal z × (at.next < z.slots) × (event_known kind meter ≡ true) }
    ensures { row_of result ≡ refusal (event_next_rows_in z at (decoded words.now) kind meter s) }
{
    if state_words::open_at(words, 1) {
        return Err(Refusal::WriterOpen);
    }
    if at.prepared < 4 {
        return Err(Refusal::TransactionPrepared);
    }
    let first = writing::line_taken(z, words, 1, s, meters::first_meter(kind, meter));
    if first | writing::line_taken(z, words, 1, s, meters::own_meter(kind, meter)) {
        return Err(Refusal::LineHeld);
    }
    if writing::none_free(z, at.next, words, s) {
        return Err(Refusal::NoFreeSlot);
    }
    Ok(())
}

// The first row that turns a pending event back.
pub(crate) fn event_row(
    z: Sizes,
    at: Places,
    words: &Words,
    kind: usize,
    meter: usize,
) -> Result<(), Refusal>
    requires { Low z at }
    ensures { row_of result ≡ refusal (op_rows (seen z at (decoded words.now)) (Event kind meter 0)) }
{
    if at.wide < 4 {
        return Err(Refusal::OtherOpen);
    }
    if !meters::is_known(kind, meter) {
        return Err(Refusal::UnknownEvent);
    }
    let s = state_held::slots::slot_of(z, words, 0);
    event_next_row(z, at, words, kind, meter, s)?;
    if no_room(z, at.head, at.tail) {
        return Err(Refusal::JournalFull);
    }
    Ok(())
}
