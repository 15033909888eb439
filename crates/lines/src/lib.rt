// Whole lines of the frames: read, and merged with data.
#![tactic(auto)]

ghost use Rattle.std.specs.Prelude.{◌≡◌, ◌+◌, ◌≤◌, ◌<◌, length};
ghost use Rattle.words.specs.Words.{part, over};
ghost use Rattle.layout.specs.Layout.{Legal, frames, image_length};
ghost use Rattle.image.specs.Lines.{line_bytes, merged, differ, merge_changes, line_words};

use layout::Sizes;

// Copies line l of frame f to the start of target.
pub fn read_line(image: &[u8], z: Sizes, f: usize, l: usize, target: &mut [u8])
    requires { Legal z × (f < frames z) × (l < 64) × (image_length z ≤ length image.now) × (64 ≤ length target.old) }
    ensures { target.new ≡ over target.old 0 (line_bytes image.now z f l) }
{
    runs::copy_words(image::frame(image, z, f), 64 * l, target, 0, 8);
}

// Whether two lines differ, told by their words, all of which are compared: `a != b` would branch at each.
pub fn words_differ<'a>(a: &'a [u64; 8], b: &'a [u64; 8]) -> bool
    ensures { result ≡ differ 8 a.now b.now }
{
    let mut differ = false;
    for k in 0..8 {
        differ |= a[k] != b[k];
    }
    differ
}

// The words of a line that data were laid over, and whether any byte changed.
#[derive(Clone, Copy, Debug, PartialEq, Eq)]
pub struct Merged {
    pub words: [u64; 8],
    pub changed: bool,
}

// The line of 64 bytes from byte at on with the first n bytes of data laid over it from offset on.
pub fn merged_at(bytes: &[u8], at: usize, offset: usize, data: &[u8], n: usize) -> Merged
    requires { (at + 64 ≤ length bytes.now) × (offset + n ≤ 64) × (n ≤ length «data».now) }
    ensures words { result.words ≡ line_words (merged (part bytes.now at 64) offset n «data».now) }
    ensures changed { result.changed ≡ merge_changes (part bytes.now at 64) offset n «data».now }
{
    let mut line = [0u8; 64];
    runs::copy_words(bytes, at, &mut line, 0, 8);
    let before = runs::words_of(&line);
    line[offset..offset + n].copy_from_slice(&data[0..n]);
    let words = runs::words_of(&line);
    let changed = words_differ(&words, &before);
    Merged { words, changed }
}

// Line l of frame f with the first n bytes of data laid over it from offset on.
pub fn merged_line(
    image: &[u8],
    z: Sizes,
    f: usize,
    l: usize,
    offset: usize,
    data: &[u8],
    n: usize,
) -> Merged
    requires { Legal z × (f < frames z) × (l < 64) × (image_length z ≤ length image.now) × (offset + n ≤ 64) × (n ≤ length «data».now) }
    ensures words { result.words ≡ line_words (merged (line_bytes image.now z f l) offset n «data».now) }
    ensures changed { result.changed ≡ merge_changes (line_bytes image.now z f l) offset n «data».now }
{
    merged_at(image::frame(image, z, f), 64 * l, offset, data, n)
}
