// The pieces of a commit, of a state in words. Nothing here writes.
ghost use Rattle.std.specs.Prelude.{◌≡◌, true, List, ℕ, ◌*◌, ◌<◌, ◌≤◌, length};
ghost use Rattle.layout.specs.Layout.{Legal, head_word, record_word, image_length};
ghost use Rattle.journal.specs.Records.{position};
ghost use Rattle.replay.specs.Table.{slots_shaped};
ghost use Rattle.state.specs.Held.{held_slots};
ghost use Rattle.op_pieces.specs.Pieces.{Next, one_piece};
ghost use Rattle.refinement.specs.Commit.{commit_record_of, commit_at_of, commit_value_of};
ghost use Rattle.state_words.specs.Decoded.{decoded};

use journal::{Record, Slot};
use layout::Sizes;
use op_pieces::Piece;
use state_words::Words;

// The j-th record of a commit: its slot with the held lines of the writer committed.
fn commit_record(z: Sizes, head: usize, words: &Words, w: usize, j: usize) -> Record
    requires { Legal z × (w < 4) }
    ensures { result ≡ commit_record_of z head (decoded words.now).table (decoded words.now).writers.held w j }
{
    let s = crate::held_slot(z, words, w, j);
    let t = state_words::slot_at(words, s);
    let m = state_words::held_at(words, w, s);
    let now = Slot {
        page: t.page,
        original: t.original,
        spare: t.spare,
        bitmap: masks::exclusive_or(t.bitmap, m),
    };
    Record {
        first: head,
        slot: s,
        now,
    }
}

// The first word of the record j after head.
fn record_place(z: Sizes, head: usize, j: usize) -> usize
    requires { Legal z × (head < 2 * z.places) × (j ≤ z.places) }
    ensures { result ≡ record_word z (position z head j) }
{
    let q = journal::records::position(z, head, j);
    layout::record_word(z, q)
}

// The piece of a commit of c slots that store i lies in: a record, or head.
pub fn commit_piece(z: Sizes, head: usize, words: &Words, w: usize, c: usize, i: usize) -> Piece
    requires { Legal z × (head < 2 * z.places) × (slots_shaped z (decoded words.now).table ≡ true) × (w < 4)
        × (c ≡ length (held_slots z (decoded words.now).writers.held w)) }
    ensures { (img : List ℕ) → Next (λ m. commit_at_of z head (decoded words.now).writers.held w)
        (λ m. commit_value_of z head (decoded words.now).table (decoded words.now).writers.held w) i (image_length z) img result }
{
    if i < 4 * c {
        let e = commit_record(z, head, words, w, i / 4);
        let a = record_place(z, head, i / 4);
        return op_pieces::of_record(a, e, i % 4);
    }
    let h = journal::records::position(z, head, c);
    op_pieces::one(layout::HEAD_WORD, h as u64)
}

// The one piece of a confirm of c slots: head.
pub fn confirm_piece(z: Sizes, head: usize, c: usize) -> Piece
    requires { Legal z × (head < 2 * z.places) × (c ≤ z.places) }
    ensures { result ≡ one_piece head_word (position z head c) }
{
    let h = journal::records::position(z, head, c);
    op_pieces::one(layout::HEAD_WORD, h as u64)
}
