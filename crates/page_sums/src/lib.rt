// A checksum of the pages, line by line through read.
#![tactic(auto)]

ghost use Rattle.std.specs.Prelude.{◌≡◌, ◌+◌, ◌*◌, ◌%◌};

use state_words::Words;

// One word more.
fn with(sum: u64, word: u64) -> u64
    ensures { result ≡ (31 * (sum % 4294967291) + word % 4294967291) % 4294967291 }
{
    (31 * (sum % 4294967291) + word % 4294967291) % 4294967291
}

// Line i of the 1,024 more, as a writer that holds nothing sees it.
fn with_line(sum: u64, image: &[u8; 84288], words: &Words, i: usize) -> u64 {
    let mut line = [0u8; 64];
    let _ = call_read::read(image, words, 0, i / 64, i % 64, &mut line);
    let mut sum = sum;
    for k in 0..8 {
        sum = with(sum, image_words::read_word(&line, k));
    }
    sum
}

// The checksum of 16 pages of 64 lines.
pub fn of_pages(image: &[u8; 84288], words: &Words) -> u64 {
    let mut sum = 0;
    for i in 0..1024 {
        sum = with_line(sum, image, words, i);
    }
    sum
}
