// The stores of what is pending: the piece that a store lies in, by operation, and the loop that puts pieces.
ghost use Rattle.std.specs.Prelude.{◌≡◌, true, List, ℕ, ◌+◌, ◌*◌, ◌^◌, ◌<◌, ◌≤◌, length};
ghost use Rattle.layout.specs.Layout.{Legal, head_word, image_length};
ghost use Rattle.journal.specs.Records.{position};
ghost use Rattle.replay.specs.Table.{slots_shaped};
ghost use Rattle.state.specs.Held.{held_slots};
ghost use Rattle.operations.specs.Operations.{needs};
ghost use Rattle.refinement.specs.Commit.{commit_at_of, commit_value_of};
ghost use Rattle.refinement.specs.Stores.{store_at, store_value, stores_made};
ghost use Rattle.op_pieces.specs.Pieces.{Next, one_piece};
ghost use Rattle.state_words.specs.Decoded.{decoded};
ghost use Rattle.op_writer.specs.Served.{Served};

use layout::Sizes;
use op_pieces::Piece;
use state::{Op, Places};
use state_held::held::held_count;
use state_words::Words;

// The piece of a commit or a prepare by writer w that store i lies in.
fn commit_piece(z: Sizes, at: Places, words: &Words, w: usize, i: usize) -> Piece
    requires { Legal z × (at.head < 2 * z.places) × (slots_shaped z (decoded words.now).table ≡ true) × (w < 4) }
    ensures { (img : List ℕ) → Next (λ m. commit_at_of z at.head (decoded words.now).writers.held w)
        (λ m. commit_value_of z at.head (decoded words.now).table (decoded words.now).writers.held w) i (image_length z) img result }
{
    let c = held_count(z, words, w);
    op_commit::piece::commit_piece(z, at.head, words, w, c, i)
}

// The piece of a confirm by writer w.
fn confirm_piece(z: Sizes, at: Places, words: &Words, w: usize) -> Piece
    requires { Legal z × (at.head < 2 * z.places) × (w < 4) }
    ensures { result ≡ one_piece head_word (position z at.head (length (held_slots z (decoded words.now).writers.held w))) }
{
    let c = held_count(z, words, w);
    op_commit::piece::confirm_piece(z, at.head, c)
}

// The piece that store i of the pending operation lies in.
pub(crate) fn next_piece(
    image: &[u8],
    z: Sizes,
    at: Places,
    words: &Words,
    op: Op,
    i: usize,
) -> Piece
    requires { Served z at (decoded words.now) × (op ≡ (decoded words.now).pending.op) × (i < needs (decoded words.now) op)
        × (image_length z ≤ length image.now) }
    ensures { Next (λ m. store_at (decoded words.now) op) (λ m. store_value (decoded words.now) m op)
        i (image_length z) image.now result }
{
    match op {
        Op::Idle => op_pieces::one(0, 0),
        Op::Write { page, line, .. } => op_write::write_piece(z, at.next, words, page, line, i),
        Op::Log { page, line, .. } => op_log::log_piece(z, words, at.count, page, line, i),
        Op::Commit { writer } | Op::Prepare { writer } => commit_piece(z, at, words, writer, i),
        Op::Consolidate { page } => op_consolidate::consolidate_piece(image, z, at, words, page, i),
        Op::Checkpoint => op_checkpoint::checkpoint_piece(image, z, at, words, i),
        Op::Event { kind, meter, .. } => op_event::event_piece(z, at, words, kind, meter, i),
        Op::Confirm { writer } => confirm_piece(z, at, words, writer),
        Op::Copy => op_copy::copy_piece(image, z, words, at.count, i),
        Op::Format => op_format::format_piece(z, i),
    }
}

// Makes n stores of the pending operation, after those made: piece by piece, each word in its turn.
pub(crate) fn make_stores(
    image: &mut [u8],
    z: Sizes,
    at: Places,
    words: &Words,
    op: Op,
    made: usize,
    n: usize,
)
    requires { Served z at (decoded words.now) × (op ≡ (decoded words.now).pending.op) × (made ≡ (decoded words.now).pending.made)
        × (made + n ≤ needs (decoded words.now) op) × (made + n < 2 ^ 64) × (image_length z ≤ length image.old) }
    ensures { image.new ≡ stores_made (decoded words.now) n image.old }
{
    let mut i = 0;
    // A turn makes as many stores as its piece has left, so no range steps as i does.
    while i < n {
        let p = next_piece(image, z, at, words, op, made + i);
        let m = bounded::smaller(p.count - p.from, n - i);
        op_writer::put_piece(image, words, p, m);
        i += m;
    }
}
