// An event on a state in words: its pieces, which are those of writer 1's writes and commit, and the state after its last store.
#![tactic(auto)]

ghost use Rattle.std.specs.Prelude.{◌≡◌, true, false, List, ℕ, ◌*◌, ◌<◌};
ghost use Rattle.bounded.specs.Rows.{refusal};
ghost use Rattle.layout.specs.Layout.{Legal, image_length};
ghost use Rattle.meters.specs.Meters.{event_known};
ghost use Rattle.state.specs.declared.Op.TheVariants.{Event};
ghost use Rattle.operations.specs.Operations.{is_idle, op_rows};
ghost use Rattle.validity.specs.Validity.{state_ok};
ghost use Rattle.refinement.specs.Commit.{commit_at, commit_value};
ghost use Rattle.refinement.specs.Event.{line_stores, lines_done, event_at, event_value, event_done};
ghost use Rattle.op_pieces.specs.Pieces.{Next};
ghost use Rattle.state_words.specs.Decoded.{decoded, places_of};
ghost use Rattle.op_event.specs.LinesHeld.{lines_held};

use layout::Sizes;
use op_pieces::Piece;
use state::Places;
use state_words::Words;

// The stores of an event's lines.
fn line_stores(kind: usize) -> usize
    ensures { result ≡ line_stores kind }
{
    if meters::moves_credit(kind) { 16 } else { 8 }
}

// Writer 1 begins and holds the lines of an event.
fn hold_lines(z: Sizes, words: &mut Words, kind: usize, meter: usize)
    requires { (z ≡ (decoded words.old).sizes) × Legal z × ((decoded words.old).next < z.slots) × (event_known kind meter ≡ true) }
    ensures { decoded words.new ≡ lines_held (decoded words.old) kind meter }
{
    state_words::put_open(words, 1, true);
    op_write::hold_line(z, words, 1, 0, meters::first_meter(kind, meter));
    if !meters::moves_credit(kind) {
        return;
    }
    op_write::hold_line(z, words, 1, 0, meters::own_meter(kind, meter));
}

// The piece that store i of an event's commit lies in: its lines are held in a copy of the words.
fn commit_piece(z: Sizes, at: Places, words: &Words, kind: usize, meter: usize, i: usize) -> Piece
    requires { (z ≡ (decoded words.now).sizes) × (at ≡ places_of (decoded words.now)) × (state_ok (decoded words.now) ≡ true)
        × (refusal (op_rows (decoded words.now) (Event kind meter 0)) ≡ 0) }
    ensures { (img : List ℕ) → Next (λ m. commit_at (lines_done (decoded words.now) kind meter) 1)
        (λ m. commit_value (lines_done (decoded words.now) kind meter) 1) i (image_length z) img result }
{
    let _ = state_words::all_words(*words);
    let mut after = *words;
    hold_lines(z, &mut after, kind, meter);
    op_commit::piece::commit_piece(z, at.head, &after, 1, 1, i)
}

// The piece of an event that store i lies in: a line, its record, or head. No row turns the event back; the rows do not read the amount.
pub fn event_piece(
    z: Sizes,
    at: Places,
    words: &Words,
    kind: usize,
    meter: usize,
    i: usize,
) -> Piece
    requires { (z ≡ (decoded words.now).sizes) × (at ≡ places_of (decoded words.now)) × (state_ok (decoded words.now) ≡ true)
        × (is_idle (decoded words.now).pending.op ≡ false) × (refusal (op_rows (decoded words.now) (Event kind meter 0)) ≡ 0) }
    ensures { (img : List ℕ) → Next (λ m. event_at (decoded words.now) kind meter)
        (λ m. event_value (decoded words.now) kind meter) i (image_length z) img result }
{
    let _ = state_words::all_words(*words);
    if i < 8 {
        let line = state_words::parts::line_in(words);
        let l = meters::first_meter(kind, meter);
        return op_write::line_piece(z, at.next, words, line, 0, l, i);
    }
    let lines = line_stores(kind);
    if i < lines {
        let line = state_words::parts::second_in(words);
        let o = meters::own_meter(kind, meter);
        return op_write::line_piece(z, at.next, words, line, 0, o, i - 8);
    }
    commit_piece(z, at, words, kind, meter, i - lines)
}

// What an event leaves when it is complete.
pub fn complete_event(z: Sizes, words: &mut Words, kind: usize, meter: usize)
    requires { (z ≡ (decoded words.old).sizes) × Legal z × ((decoded words.old).head < 2 * z.places)
        × ((decoded words.old).next < z.slots) × (event_known kind meter ≡ true) }
    ensures { decoded words.new ≡ event_done (decoded words.old) kind meter }
{
    hold_lines(z, words, kind, meter);
    op_commit::complete_commit(z, words, 1);
}
