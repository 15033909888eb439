// Words of an image, by their number.
#![tactic(auto)]

ghost use Rattle.std.specs.Prelude.{◌≡◌, ◌+◌, ◌*◌, ◌≤◌, length};
ghost use Rattle.words.specs.Words.{word, store};

// Word i of an image.
pub fn read_word(image: &[u8], i: usize) -> u64
    requires { 8 * i + 8 ≤ length image.now }
    ensures { result ≡ word image.now i }
{
    words::word_at(image, 8 * i)
}

// Stores v as word i of an image.
pub fn store_word(image: &mut [u8], i: usize, v: u64)
    requires { 8 * i + 8 ≤ length image.old }
    ensures { image.new ≡ store image.old i v }
{
    words::put_word(image, 8 * i, v);
}
