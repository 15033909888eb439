// An input line: parsed, performed and printed.
ghost use Rattle.std.specs.Prelude.{◌≡◌, ◌+◌, ◌≤◌, length};
ghost use Rattle.number_text.specs.Text.{Put};
ghost use Rattle.probe.specs.Program.{bench_at, bench_after, bytes_after, line_text};

use crate::Printed;
use state_words::Words;
use workbench::moduli::Moduli;

// Input line n, printed at byte at of the output.
pub fn perform(
    buffer: &mut [u8],
    words: &mut Words,
    table: &mut Moduli,
    lent: usize,
    line: &[u8],
    n: u64,
    out: &mut [u8],
    at: usize,
) -> Printed
    requires { at + 29066 ≤ length out.old }
    ensures bench { bench_at words.new table.new result.lent
        ≡ bench_after (bench_at words.old table.old lent) buffer.old line.now }
    ensures buffer { buffer.new ≡ bytes_after (bench_at words.old table.old lent) buffer.old line.now }
    ensures text { Put out.old at
        (line_text (bench_at words.old table.old lent) buffer.old line.now n) out.new result.next }
{
    let l = text::parse::parse(line, 20);
    let later = probing::lent_after(lent, buffer.len(), l);
    let said = probing::turn(buffer, words, table, lent, l);
    let next = reporting::print(out, at, n, l.letter, said, words);
    Printed { lent: later, next }
}
