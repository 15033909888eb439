// A wide write of a state in words: its pieces, and the state after its last store.
#![tactic(auto)]

ghost use Rattle.std.specs.Prelude.{◌≡◌, false, List, ℕ, ◌<◌, ◌≤◌};
ghost use Rattle.layout.specs.Layout.{Legal, image_length};
ghost use Rattle.state.specs.Wide.{entry_for};
ghost use Rattle.operations.specs.Operations.{is_idle};
ghost use Rattle.op_pieces.specs.Pieces.{Next};
ghost use Rattle.refinement.specs.Wide.{log_at, log_value, log_done};
ghost use Rattle.state_words.specs.Decoded.{decoded};

use layout::Sizes;
use op_pieces::Piece;
use state_held::held::find_entry;
use state_words::Words;

// The piece of a wide write of line l of page p that store i lies in: the key, or the line, which stands in the words. So many entries are used.
pub fn log_piece(z: Sizes, words: &Words, count: usize, p: usize, l: usize, i: usize) -> Piece
    requires { (z ≡ (decoded words.now).sizes) × (count ≡ (decoded words.now).wide.count) × Legal z × (count ≤ z.entries)
        × (entry_for (decoded words.now).wide p l < z.entries) × (p < z.pages) × (l < 64) × (i < 9)
        × (is_idle (decoded words.now).pending.op ≡ false) }
    ensures { (img : List ℕ) → Next (λ m. log_at (decoded words.now) p l) (λ m. log_value (decoded words.now) p l)
        i (image_length z) img result }
{
    let key = (64 * p + l) as u64;
    let e = find_entry(words, count, key);
    let at = layout::entry_word(z, e);
    if i == 0 {
        return op_pieces::one(at, key);
    }
    let line = state_words::parts::line_in(words);
    op_pieces::of_line(at + 1, &line, i - 1)
}

// What a wide write leaves: the line of page p has its entry, the one that it had or one more. The wide writer uses so many.
pub fn complete_log(words: &mut Words, wide: usize, count: usize, p: usize, l: usize)
    requires { (wide ≡ (decoded words.old).wide.writer) × (count ≡ (decoded words.old).wide.count) × (count ≤ 64)
        × (entry_for (decoded words.old).wide p l < 64) × (p < 1024) × (l < 64) }
    ensures { decoded words.new ≡ log_done (decoded words.old) p l }
{
    let key = (64 * p + l) as u64;
    let e = find_entry(words, count, key);
    state_words::put_key(words, e, key);
    state_words::put_wide(words, wide, count + state::held::one_if(count <= e));
    state_words::put_nothing(words);
}
