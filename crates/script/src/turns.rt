// A line of powerhit's script performed: the call that it names, and what is printed of it.
ghost use Rattle.std.specs.Prelude.{◌≡◌};
ghost use Rattle.state_words.specs.Decoded.{decoded};
ghost use Rattle.executing.specs.Called.{machine_at, turn_at};
ghost use Rattle.script.specs.Turns.{sizes_in, formats, shown, shown_by, turn_of};

use executing::{Mode, Turned, calls, finishing};
use forms::Form;
use layout::Sizes;
use op_stores::Until;
use printing::Output;
use state_words::Words;
use text::Line;

// The sizes that a line gives.
fn sizes_in(numbers: &[u64; 69]) -> Sizes
    ensures { result ≡ sizes_in numbers.now }
{
    Sizes {
        pages: numbers[0] as usize,
        slots: numbers[1] as usize,
        places: numbers[2] as usize,
        entries: 0,
    }
}

// F: a format asked for, and its stores; after a refused one the machine stays as it was.
fn format_turn(image: &mut [u8], words: &mut Words, m: Mode, z: Sizes) -> Turned
    ensures { turn_at result words.new image.new ≡ formats (machine_at m words.old) image.old z }
{
    let answer = call_mount::format(image, words, z, Until::Asked);
    let number = answers::number_of(answer);
    if number != 0 {
        let output = Output::Answered {
            letter: b'F',
            number,
            stores: 0,
        };
        return Turned { mode: m, output };
    }
    finishing::finish(image, words, m.cut, b'F', answer)
}

// R: the byte at an offset of a line.
fn read_byte(
    image: &[u8],
    words: &Words,
    writer: usize,
    page: usize,
    line: usize,
    offset: usize,
) -> Output
    ensures { result ≡ shown (decoded words.now) image.now writer page line offset }
{
    let mut target = [0u8; 64];
    let answer = call_read::read(image, words, writer, page, line, &mut target);
    let number = answers::number_of(answer);
    if number != 0 {
        return Output::Answered {
            letter: b'R',
            number,
            stores: 0,
        };
    }
    if offset > 63 {
        return Output::Answered {
            letter: b'R',
            number: 11,
            stores: 0,
        };
    }
    Output::Shown(target[offset])
}

fn read_shown(image: &[u8], words: &Words, numbers: &[u64; 69]) -> Output
    ensures { result ≡ shown_by (decoded words.now) image.now numbers.now }
{
    read_byte(
        image,
        words,
        numbers[0] as usize,
        numbers[1] as usize,
        numbers[2] as usize,
        numbers[3] as usize,
    )
}

// The machine and the image after a line, and what it prints. A K takes the place of one that waits.
pub fn turn(image: &mut [u8], words: &mut Words, m: Mode, line: Line) -> Turned
    ensures { turn_at result words.new image.new ≡ turn_of (machine_at m words.old) image.old line }
{
    let letter = line.letter;
    let count = line.count;
    match forms::form_of(m.formatted, letter, count, &line.numbers) {
        Form::Formats => format_turn(image, words, m, sizes_in(&line.numbers)),
        Form::Asks(a) => {
            let answer = calls::ask(image, words, a, count, &line.numbers);
            finishing::finish(image, words, m.cut, letter, answer)
        }
        Form::Reads => {
            let output = read_shown(image, words, &line.numbers);
            Turned { mode: m, output }
        }
        Form::Cuts => finishing::answered(Some(line.numbers[0] as usize), b'K', 0, 0),
        Form::Other => Turned {
            mode: m,
            output: Output::Unknown,
        },
    }
}
