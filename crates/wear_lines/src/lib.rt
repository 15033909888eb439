// The lines of program wear_by_frame: inputs of powerhit, parted by lines `=`; and the 22 numbers that are printed (request L12).
#![tactic(auto)]

pub mod output;

ghost use Rattle.std.specs.Prelude.{◌≡◌, length, replicate};
ghost use Rattle.executing.specs.Called.{machine_at};
ghost use Rattle.script.specs.Performed.{started};
ghost use Rattle.wear.specs.Performs.{NarrowMachine};
ghost use Rattle.wear_lines.specs.Lines.{parts};
ghost use Rattle.wear_lines.specs.Stands.{Acts};

use executing::Mode;
use script::performing;
use state_words::Words;
use wear::turning;

// Before the first line of an input: no format is taken, no K waits, and the buffer is of zeros.
pub fn open_input(image: &mut [u8], words: &mut Words) -> Mode
    ensures machine { machine_at result words.new ≡ started }
    ensures image { image.new ≡ replicate (length image.old) 0 }
{
    image.fill(0);
    performing::start(words)
}

// Whether a line parts inputs.
fn is_parting(line: &[u8]) -> bool
    ensures { result ≡ parts line.now }
{
    matches!(line, [b'='])
}

// One line more.
pub fn take_line(
    image: &mut [u8],
    words: &mut Words,
    m: Mode,
    counts: &mut [u64],
    line: &[u8],
) -> Mode
    requires counts_len { length counts.old ≡ 22 }
    requires narrow_machine { NarrowMachine (machine_at m words.old) }
    ensures { Acts (machine_at m words.old) image.old counts.old line.now
        (machine_at result words.new) image.new counts.new }
{
    if is_parting(line) {
        return open_input(image, words);
    }
    turning::turn(image, words, m, counts, text::parse::parse(line, 9))
}
