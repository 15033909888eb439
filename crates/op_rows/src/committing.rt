// The rows from 11 on of a commit, in one part or in two, of a wide commit, and of a consolidation.
ghost use Rattle.std.specs.Prelude.{◌≡◌, not, [], ◌∷◌, ltb, eqb};
ghost use Rattle.bounded.specs.Rows.{refusal};
ghost use Rattle.rows.specs.Numbers.{row_of};
ghost use Rattle.operations.specs.Operations.{commit_rows, prepare_rows, consolidate_rows};
ghost use Rattle.state.specs.Held.{some_prepared};
ghost use Rattle.state_words.specs.Decoded.{decoded};
ghost use Rattle.op_rows.specs.Seen.{Low, seen};

use crate::no_room;
use layout::Sizes;
use rows::Refusal;
use state::Places;
use state_words::Words;

// The first row from 11 on that turns a commit back.
pub fn commit_row(z: Sizes, at: Places, words: &Words, writer: usize) -> Result<(), Refusal>
    requires { Low z at }
    ensures { row_of result ≡ refusal (commit_rows (seen z at (decoded words.now)) writer) }
{
    if writer > 3 {
        return Err(Refusal::BadArgument);
    }
    if !state_words::open_at(words, writer) {
        return Err(Refusal::WriterNotOpen);
    }
    if at.prepared < 4 {
        return Err(Refusal::TransactionPrepared);
    }
    let n = state_held::held::held_count(z, words, writer);
    if z.places < journal::records::live_count(z, at.head, at.tail) + n {
        return Err(Refusal::JournalFull);
    }
    Ok(())
}

// The first row from 11 on that turns a prepare back.
pub(crate) fn prepare_row(z: Sizes, at: Places, words: &Words, writer: usize) -> Result<(), Refusal>
    requires { Low z at }
    ensures { row_of result ≡ refusal (prepare_rows (seen z at (decoded words.now)) writer) }
{
    if (writer <= 3) & (at.wide < 4) {
        return Err(Refusal::OtherOpen);
    }
    commit_row(z, at, words, writer)
}

// The first row from 11 on that turns a pending wide commit back.
pub(crate) fn copy_row(prepared: usize) -> Result<(), Refusal>
    ensures { row_of result ≡ refusal ((some_prepared prepared, 23) ∷ []) }
{
    if prepared < 4 {
        return Err(Refusal::TransactionPrepared);
    }
    Ok(())
}

// The first row from 11 on that turns a confirm or a withdraw back.
pub(crate) fn confirm_row(prepared: usize, writer: usize) -> Result<(), Refusal>
    ensures { row_of result ≡ refusal ((ltb 3 writer, 11) ∷ (not (eqb prepared writer), 24) ∷ []) }
{
    if writer > 3 {
        return Err(Refusal::BadArgument);
    }
    if prepared != writer {
        return Err(Refusal::WriterNotPrepared);
    }
    Ok(())
}

// The first row from 11 on that turns a consolidation of page p back.
pub fn consolidate_row(z: Sizes, at: Places, words: &Words, p: usize) -> Result<(), Refusal>
    requires { Low z at }
    ensures { row_of result ≡ refusal (consolidate_rows (seen z at (decoded words.now)) p) }
{
    if z.pages <= p {
        return Err(Refusal::BadArgument);
    }
    if at.prepared < 4 {
        return Err(Refusal::TransactionPrepared);
    }
    let s = state_held::slots::slot_of(z, words, p);
    if z.slots <= s {
        return Err(Refusal::PageWithoutSlot);
    }
    if state_held::held::some_hold(words, s) {
        return Err(Refusal::PageHeld);
    }
    if no_room(z, at.head, at.tail) {
        return Err(Refusal::JournalFull);
    }
    Ok(())
}
