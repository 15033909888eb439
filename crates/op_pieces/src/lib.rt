// Pieces: words that lie side by side and that an operation stores one after the other. Nothing here writes an image.
#![tactic(auto)]

ghost use Rattle.std.specs.Prelude.{◌≡◌, ◌+◌, ◌*◌, ◌≤◌, length};
ghost use Rattle.op_pieces.specs.Pieces.{Fits, one_piece, record_piece, line_piece, slot_piece, copy_piece};

use journal::Record;

// `count` words for the words of an image from word `at` on. Those from its word `from` on are still to be stored.
#[derive(Clone, Copy)]
pub struct Piece {
    pub at: usize,
    pub from: usize,
    pub count: usize,
    pub words: [u64; 8],
}

// One word. What decides is stored so: head, tail, the count of entries.
pub fn one(at: usize, v: u64) -> Piece
    ensures { result ≡ one_piece at v }
{
    let words = [v, 0, 0, 0, 0, 0, 0, 0];
    Piece {
        at,
        from: 0,
        count: 1,
        words,
    }
}

// The four words of a record, from word k on.
pub fn of_record(at: usize, e: Record, k: usize) -> Piece
    requires { Fits e }
    ensures { result ≡ record_piece at e k }
{
    let w0 = journal::records::word_of_record(e, 0);
    let w1 = journal::records::word_of_record(e, 1);
    let w2 = journal::records::word_of_record(e, 2);
    let w3 = journal::records::word_of_record(e, 3);
    let words = [w0, w1, w2, w3, 0, 0, 0, 0];
    Piece {
        at,
        from: k,
        count: 4,
        words,
    }
}

// The eight words of a line, from word k on.
pub fn of_line(at: usize, line: &[u64; 8], k: usize) -> Piece
    ensures { result ≡ line_piece at line.now k }
{
    let words = *line;
    Piece {
        at,
        from: k,
        count: 8,
        words,
    }
}

// The three words that stand from word a on, as a slot's.
pub fn of_slot(at: usize, image: &[u8], a: usize, k: usize) -> Piece
    requires { 8 * (a + 3) ≤ length image.now }
    ensures { result ≡ slot_piece at image.now a k }
{
    let w0 = image_words::read_word(image, a);
    let w1 = image_words::read_word(image, a + 1);
    let w2 = image_words::read_word(image, a + 2);
    let words = [w0, w1, w2, 0, 0, 0, 0, 0];
    Piece {
        at,
        from: k,
        count: 3,
        words,
    }
}

// The eight words that stand from byte o on, as a line's: of a frame that was cut out of an image, or of an image.
pub fn of_copy(at: usize, bytes: &[u8], o: usize, k: usize) -> Piece
    requires { o + 64 ≤ length bytes.now }
    ensures { result ≡ copy_piece at bytes.now o k }
{
    let words = runs::words_of(&bytes[o..o + 64]);
    Piece {
        at,
        from: k,
        count: 8,
        words,
    }
}
