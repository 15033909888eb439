// Words of the lines of the frames. A reader is passed one frame's 4,096 bytes, cut out of the image.
#![tactic(auto)]

ghost use Rattle.std.specs.Prelude.{◌≡◌, ◌⊎◌, ◌+◌, ◌*◌, ◌≤◌, ◌<◌, length};
ghost use Rattle.words.specs.Words.{word_at, word, part};
ghost use Rattle.layout.specs.Layout.{Legal, frames, line_word, image_length};

use layout::Sizes;

// One frame's bytes.
pub fn frame(image: &[u8], z: Sizes, f: usize) -> &[u8]
    requires { Legal z × (f < frames z) × (image_length z ≤ length image.now) }
    ensures { result.now ≡ part image.now (8 * line_word z f 0) 4096 }
{
    let at = 8 * layout::line_word(z, f, 0);
    &image[at..at + 4096]
}

// Word k of line l of a frame.
fn frame_line_word(frame: &[u8], l: usize, k: usize) -> u64
    requires { (length frame.now ≡ 4096) × (l < 64) × (k < 8) }
    ensures { result ≡ word_at frame.now (64 * l + 8 * k) }
{
    words::word_at(frame, 64 * l + 8 * k)
}

// Word k of line l of frame f of an image.
pub fn read_line_word(image: &[u8], z: Sizes, f: usize, l: usize, k: usize) -> u64
    requires { Legal z × (f < frames z) × (l < 64) × (k < 8) × (image_length z ≤ length image.now) }
    ensures { result ≡ word image.now (line_word z f l + k) }
{
    frame_line_word(frame(image, z, f), l, k)
}
