// The one function that stores an operation's words.
#![tactic(auto)]

ghost use Rattle.std.specs.Prelude.{◌≡◌, ◌+◌, ◌*◌, ◌<◌, ◌≤◌, length, get_or};
ghost use Rattle.bounded.specs.Below.{up_to};
ghost use Rattle.words.specs.Words.{put_word};
ghost use Rattle.op_pieces.specs.Pieces.{piece_stores};
ghost use Rattle.state_words.specs.Decoded.{decoded};
ghost use Rattle.op_writer.specs.Due.{Due};

use op_pieces::Piece;
use state_words::Words;

// The word writer: puts n words, from word k on, into the part of an image that holds a piece.
fn put_words(part: &mut [u8], words: &[u64; 8], k: usize, n: usize)
    requires { (k + n ≤ 8) × (8 * (k + n) ≤ length part.old) }
    ensures { part.new ≡ up_to n (λ d m. put_word m (8 * (k + d)) (get_or words.now (k + d) 0)) part.old }
{
    if n == 1 {
        words::put_word(part, 8 * k, words[k]);
        return;
    }
    for i in 0..n {
        words::put_word(part, 8 * (k + i), words[k + i]);
    }
}

// Puts n words of a piece, rising. That they are the next stores of what is pending in the words, those before them having landed, is required. The words
// say which operation that is, and are not read.
pub fn put_piece(image: &mut [u8], words: &Words, p: Piece, n: usize)
    requires { Due (decoded words.now) image.old p n }
    ensures { image.new ≡ piece_stores p n image.old }
{
    let start = 8 * p.at;
    let end = start + 8 * p.count;
    put_words(&mut image[start..end], &p.words, p.from, n);
}
