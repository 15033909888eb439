// The lines of entries: read, and merged with data.
#![tactic(auto)]

ghost use Rattle.std.specs.Prelude.{◌≡◌, ◌+◌, ◌*◌, ◌≤◌, ◌<◌, length};
ghost use Rattle.words.specs.Words.{over};
ghost use Rattle.layout.specs.Layout.{Legal, entry_word, image_length};
ghost use Rattle.image.specs.Lines.{merged, merge_changes, line_words};
ghost use Rattle.refinement.specs.Wide.{entry_bytes};

use layout::Sizes;
use lines::Merged;

// The byte at which the line of entry e starts, after the entry's key.
fn entry_at(z: Sizes, e: usize) -> usize
    requires { Legal z × (e < z.entries) }
    ensures { result ≡ 8 * (entry_word z e + 1) }
{
    8 * (layout::entry_word(z, e) + 1)
}

// Copies the line of entry e to the start of target.
pub fn read_entry(image: &[u8], z: Sizes, e: usize, target: &mut [u8])
    requires { Legal z × (e < z.entries) × (image_length z ≤ length image.now) × (64 ≤ length target.old) }
    ensures { target.new ≡ over target.old 0 (entry_bytes image.now z e) }
{
    runs::copy_words(image, entry_at(z, e), target, 0, 8);
}

// The line of entry e with the first n bytes of data laid over it from offset on.
pub fn merged_entry(
    image: &[u8],
    z: Sizes,
    e: usize,
    offset: usize,
    data: &[u8],
    n: usize,
) -> Merged
    requires { Legal z × (e < z.entries) × (image_length z ≤ length image.now) × (offset + n ≤ 64) × (n ≤ length «data».now) }
    ensures words { result.words ≡ line_words (merged (entry_bytes image.now z e) offset n «data».now) }
    ensures changed { result.changed ≡ merge_changes (entry_bytes image.now z e) offset n «data».now }
{
    lines::merged_at(image, entry_at(z, e), offset, data, n)
}
