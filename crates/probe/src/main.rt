// Program probe: every call on any state and any bytes, as lines of standard input, each answered by a line of standard
// output (PROBE.md). Here the input is cut into lines and the output is collected; what a line does is `line_reading`'.
#![tactic(auto)]

mod line_reading;
mod reading;

ghost use Rattle.std.specs.Prelude.{◌≡◌, ℕ, List};
ghost use Rattle.state_words.specs.Decoded.{decoded};
ghost use Rattle.workbench.specs.Turns.{first_state};
ghost use Rattle.workbench.specs.Moduli.{first_moduli};
ghost use Rattle.workbench.specs.declared.moduli.Moduli.{Moduli};
ghost use Rattle.probe.specs.Program.{stand, Shows, first};

use state_words::WORD_COUNT;
use workbench::moduli::Moduli;

// What a printed line leaves beside the state: what later calls are lent, and where the next line is printed.
#[derive(Clone, Copy, Debug, PartialEq, Eq)]
struct Printed {
    lent: usize,
    next: usize,
}

// The program between two lines: how many of the buffer's first bytes the calls are lent, how many lines it performed, how many bytes it kept of the next
// one, how many bytes of output are not written yet, and whether there is more to read and writes go well.
#[derive(Clone, Copy, Debug, PartialEq, Eq)]
struct Session {
    lent: usize,
    lines: u64,
    kept: usize,
    at: usize,
    more: bool,
}

fn started() -> Session
    ensures { (buffer words line out : List ℕ) → (table : Moduli) → decoded words ≡ first_state → table ≡ first_moduli
        → Shows (stand result buffer words table line out) (first buffer) }
{
    Session {
        lent: 65536,
        lines: 0,
        kept: 0,
        at: 0,
        more: true,
    }
}

fn main(rt: HostRuntime) {
    let mut stdin = rt.stdin();
    let mut buffer = [0u8; 65536];
    let mut words = [0u64; WORD_COUNT];
    let mut table = Moduli::first();
    let mut line = [0u8; 2048];
    let mut input = [0u8; 65536];
    let mut out = [0u8; 65536];
    reading::run(
        &mut stdin,
        &mut buffer,
        &mut words,
        &mut table,
        &mut line,
        &mut input,
        &mut out,
    );
}
