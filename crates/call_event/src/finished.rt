// The finished lines of an event.
ghost use Rattle.std.specs.Prelude.{◌≡◌, true, ◌<◌, ◌≤◌, length};
ghost use Rattle.layout.specs.Layout.{Legal, frames as frames_of, image_length};
ghost use Rattle.words.specs.Words.{bytes_of};
ghost use Rattle.image.specs.Lines.{line_bytes, merged, line_words};
ghost use Rattle.meters.specs.Meters.{moduli_ok, event_known};
ghost use Rattle.call_event.specs.Found.{second_of};

use layout::Sizes;

// The finished line of a meter, with number v: line l of frame f, its first eight bytes those of v.
pub fn numbered_line(image: &[u8], z: Sizes, f: usize, l: usize, v: u64) -> [u64; 8]
    requires { Legal z × (f < frames_of z) × (l < 64) × (image_length z ≤ length image.now) }
    ensures { result ≡ line_words (merged (line_bytes image.now z f l) 0 8 (bytes_of 8 v)) }
{
    let mut data = [0u8; 8];
    words::put_word(&mut data, 0, v);
    let line = lines::merged_line(image, z, f, l, 0, &data, 8);
    line.words
}

// The second finished line: of the event's own meter, where it moves credit.
pub fn second_line(
    image: &[u8],
    z: Sizes,
    f: usize,
    kind: usize,
    meter: usize,
    amount: u64,
    moduli: &[u64],
) -> [u64; 8]
    requires { Legal z × (f < frames_of z) × (event_known kind meter ≡ true) × (image_length z ≤ length image.now) × (moduli_ok moduli.now ≡ true) }
    ensures { result ≡ second_of image.now moduli.now z f kind meter amount }
{
    if !meters::moves_credit(kind) {
        return [0; 8];
    }
    let o = meters::own_meter(kind, meter);
    let stored = image::read_line_word(image, z, f, o, 0);
    let v = meters::rolled_by(moduli, o, stored, amount);
    numbered_line(image, z, f, o, v)
}
