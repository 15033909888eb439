// A format (document 02, L6): its pieces, and the state after its last store.
#![tactic(auto)]

ghost use Rattle.std.specs.Prelude.{◌≡◌, List, ℕ, ◌+◌, ◌<◌};
ghost use Rattle.bounded.specs.Tab.{tab};
ghost use Rattle.layout.specs.Layout.{Legal, image_length};
ghost use Rattle.state.specs.declared.Op.TheVariants.{Format};
ghost use Rattle.operations.specs.Operations.{format_needs};
ghost use Rattle.fresh.specs.Fresh.{fresh_word, format_at, format_value};
ghost use Rattle.refinement.specs.Stores.{completed};
ghost use Rattle.op_pieces.specs.Pieces.{Next};
ghost use Rattle.state_words.specs.Decoded.{decoded};

use fresh::fresh_word;
use layout::Sizes;
use op_pieces::Piece;
use state_words::Words;

// Eight words of a fresh image, from word a on.
fn fresh_words(z: Sizes, a: usize) -> [u64; 8]
    requires { Legal z × (a < format_needs z) }
    ensures { result ≡ tab 8 (λ k. fresh_word z (a + k)) }
{
    [
        fresh_word(z, a),
        fresh_word(z, a + 1),
        fresh_word(z, a + 2),
        fresh_word(z, a + 3),
        fresh_word(z, a + 4),
        fresh_word(z, a + 5),
        fresh_word(z, a + 6),
        fresh_word(z, a + 7),
    ]
}

// The piece of a format that store i lies in: the layout word alone, 0 first and its own number last; between them the three words before it, then
// eight and eight of those past it.
pub fn format_piece(z: Sizes, i: usize) -> Piece
    requires { Legal z × (i < format_needs z) }
    ensures { (img : List ℕ) → Next (λ m. format_at z) (λ m. format_value z) i (image_length z) img result }
{
    if i == 0 {
        return op_pieces::one(layout::LAYOUT_WORD, 0);
    }
    let end = layout::entry_word(z, z.entries);
    if i == end {
        return op_pieces::one(layout::LAYOUT_WORD, layout::layout_of(z));
    }
    if i < 4 {
        let words = fresh_words(z, 0);
        return Piece {
            at: 0,
            from: i - 1,
            count: 3,
            words,
        };
    }
    let words = fresh_words(z, i);
    Piece {
        at: i,
        from: 0,
        count: bounded::smaller(8, end - i),
        words,
    }
}

// What a format leaves when it is complete: the state is fresh all along.
pub fn complete_format(words: &mut Words)
    ensures { decoded words.new ≡ completed (decoded words.old) Format }
{
    state_words::put_nothing(words);
}
