// A line of the input performed: read, obeyed and answered by a line of the output.
ghost use Rattle.std.specs.Prelude.{◌≡◌, ◌+◌, leb};
ghost use Rattle.executing.specs.Called.{machine_at};
ghost use Rattle.script.specs.Performed.{room, started, performed, performed_to};

use crate::{Performed, turns};
use executing::Mode;
use state_words::{WORD_COUNT, Words};

// The machine before the first line: every word is 0.
pub fn start(words: &mut Words) -> Mode
    ensures { machine_at result words.new ≡ started }
{
    *words = [0u64; WORD_COUNT];
    Mode {
        formatted: false,
        cut: None,
    }
}

// Whether a buffer has room for a line from byte at on.
fn has_room(size: usize, at: usize) -> bool
    ensures { result ≡ leb (at + room) size }
{
    size >= 67 && at <= size - 67
}

// Performs line number n, and puts the line that it prints into out from byte at on. Without room for 67 bytes it does nothing.
pub fn perform(
    image: &mut [u8],
    words: &mut Words,
    m: Mode,
    n: usize,
    line: &[u8],
    out: &mut [u8],
    at: usize,
) -> Performed
    ensures { performed_to result words.new image.new out.new
        ≡ performed (machine_at m words.old) image.old n line.now out.old at }
{
    if !has_room(out.len(), at) {
        return Performed { mode: m, end: at };
    }
    let t = turns::turn(image, words, m, text::parse::parse(line, 9));
    let end = printing::put_output(out, at, n, t.output);
    Performed { mode: t.mode, end }
}
