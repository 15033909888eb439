// A line performed as powerhit performs it, and its stores counted.
ghost use Rattle.std.specs.Prelude.{◌≡◌, true, false, length};
ghost use Rattle.refinement.specs.Calls.{world_of};
ghost use Rattle.refinement.specs.Mount.{format_of};
ghost use Rattle.refinement.specs.Run.{exec};
ghost use Rattle.state_words.specs.Decoded.{decoded};
ghost use Rattle.call_mount.specs.Replacing.{replacing};
ghost use Rattle.call_step.specs.NextStore.{next_store_of};
ghost use Rattle.calling.specs.WriteLine.{has_data};
ghost use Rattle.forms.specs.declared.Ask.TheVariants.{Write};
ghost use Rattle.executing.specs.Called.{call_of, machine_at, world_at, finished};
ghost use Rattle.script.specs.Turns.{formats, turn_of};
ghost use Rattle.wear.specs.Wear.{is_write, stores_in, worn_by, line_wear};
ghost use Rattle.wear.specs.Performs.{Performs, Narrow, NarrowMachine};

use crate::shares;
use executing::{Mode, calls, finishing};
use forms::{Ask, Form};
use layout::Sizes;
use op_stores::Until;
use printing::Output;
use state_words::Words;
use text::Line;

// The stores that a printed line tells.
fn stores_in(o: Output) -> usize
    ensures { result ≡ stores_in o }
{
    match o {
        Output::Answered { stores, .. } => stores,
        Output::Shown(_) | Output::Unknown => 0,
    }
}

// Whether a call is a W line's.
fn is_write(a: Ask) -> bool
    ensures { result ≡ is_write a }
{
    matches!(a, Ask::Write)
}

// F: a format asked for, its stores made and counted.
fn format_line(image: &mut [u8], words: &mut Words, m: Mode, counts: &mut [u64], z: Sizes) -> Mode
    requires { length counts.old ≡ 22 }
    ensures { let t = formats (machine_at m words.old) image.old z in
        let v = world_of (replacing (decoded words.old) (format_of z image.old)).state image.old in
        Performs t (worn_by v false (stores_in t.output)) counts.old (machine_at result words.new) image.new counts.new }
{
    let answer = call_mount::format(image, words, z, Until::Asked);
    let number = answers::number_of(answer);
    if number != 0 {
        return m;
    }
    let cut = m.cut;
    let t = finishing::finish(image, words, cut, b'F', answer);
    let output = t.output;
    shares::count(counts, shares::format_ends(z), false, stores_in(output));
    t.mode
}

// The word that the next store goes to, 0 where there is none.
fn next_word(image: &[u8], words: &Words) -> usize
    ensures { result ≡ (next_store_of (decoded words.now) image.now).at }
{
    match call_step::next_store(image, words) {
        Ok(next) => next.at,
        Err(_) => 0,
    }
}

// A call asked for, its stores made and counted.
fn ask_line(
    image: &mut [u8],
    words: &mut Words,
    m: Mode,
    counts: &mut [u64],
    a: Ask,
    line: Line,
) -> Mode
    requires numbers_value { a ≡ Write → has_data line.count line.numbers ≡ true }
    requires counts_len { length counts.old ≡ 22 }
    requires narrow { Narrow (decoded words.old) }
    ensures { let d = exec (call_of a line.count line.numbers) (world_at words.old image.old) in
        let t = finished line.letter m.cut d in
        Performs t (worn_by d.world (is_write a) (stores_in t.output)) counts.old (machine_at result words.new) image.new
        counts.new }
{
    let cut = m.cut;
    let answer = calls::ask(image, words, a, line.count, &line.numbers);
    let first = next_word(image, words);
    let z = state_words::sizes_in(words);
    let t = finishing::finish(image, words, cut, line.letter, answer);
    let mode = t.mode;
    let output = t.output;
    let made = stores_in(output);
    if made == 0 {
        return mode;
    }
    let e = shares::asked_ends(a, calling::stores_of(answer), shares::frame_of(z, first));
    shares::count(counts, e, is_write(a), made);
    mode
}

// Performs a line, and adds what its stores count for. A read makes none and leaves the machine as it is.
pub fn turn(image: &mut [u8], words: &mut Words, m: Mode, counts: &mut [u64], line: Line) -> Mode
    requires counts_len { length counts.old ≡ 22 }
    requires narrow_machine { NarrowMachine (machine_at m words.old) }
    ensures { Performs (turn_of (machine_at m words.old) image.old line)
        (line_wear (machine_at m words.old) image.old line)
        counts.old (machine_at result words.new) image.new counts.new }
{
    let letter = line.letter;
    let count = line.count;
    let numbers = line.numbers;
    match forms::form_of(m.formatted, letter, count, &line.numbers) {
        Form::Formats => {
            let z = Sizes {
                pages: numbers[0] as usize,
                slots: numbers[1] as usize,
                places: numbers[2] as usize,
                entries: 0,
            };
            format_line(image, words, m, counts, z)
        }
        Form::Asks(a) => ask_line(image, words, m, counts, a, line),
        Form::Reads => m,
        Form::Cuts => {
            let t = finishing::answered(Some(numbers[0] as usize), b'K', 0, 0);
            t.mode
        }
        Form::Other => m,
    }
}
