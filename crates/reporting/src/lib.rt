// The line that a line of probe prints, put into a buffer; each call gives where the next goes.
#![tactic(auto)]

ghost use Rattle.std.specs.Prelude.{◌+◌, ◌≤◌, Some, length};
ghost use Rattle.number_text.specs.Text.{Put, field};
ghost use Rattle.state_words.specs.Decoded.{decoded};
ghost use Rattle.state_text.specs.Numbers.{state_field};
ghost use Rattle.reporting.specs.Text.{shown_start, shown_line, said_line, printed_of};
ghost use Rattle.workbench.specs.Turns.{turn_at};

use number_text::put_after;
use printing::Output;
use state::held::one_if;
use state_words::Words;
use workbench::Said;

// The line's number and letter, then answer 0 and a count.
fn put_start(out: &mut [u8], at: usize, n: u64, letter: u8, count: u64) -> usize
    requires { at + 64 ≤ length out.old }
    ensures { Put out.old at (shown_start n letter count) out.new result }
{
    let next = decimals::put_decimal(out, at, n);
    let next = decimals::put_byte(out, next, b',');
    let next = decimals::put_byte(out, next, letter);
    let next = put_after(out, next, b',', 0);
    put_after(out, next, b',', count)
}

// A line with a count and a last field, which are numbers.
fn put_counted(out: &mut [u8], at: usize, n: u64, letter: u8, count: u64, last: u64) -> usize
    requires { at + 86 ≤ length out.old }
    ensures { Put out.old at (shown_line n letter count (field last)) out.new result }
{
    let next = put_start(out, at, n, letter, count);
    let next = put_after(out, next, b',', last);
    decimals::put_byte(out, next, b'\n')
}

fn put_numbered(out: &mut [u8], at: usize, n: u64, letter: u8, words: &Words) -> usize
    requires { at + 29066 ≤ length out.old }
    ensures { Put out.old at (shown_line n letter 0 (state_field (decoded words.now))) out.new result }
{
    let next = put_start(out, at, n, letter, 0);
    let next = state_text::put_state(out, next, words);
    decimals::put_byte(out, next, b'\n')
}

// The line that a line of its letter's form prints.
fn print_said(out: &mut [u8], at: usize, n: u64, letter: u8, said: Said, words: &Words) -> usize
    requires { at + 29066 ≤ length out.old }
    ensures { Put out.old at (said_line n letter (Some said) (decoded words.now)) out.new result }
{
    match said {
        Said::Answered { number, count } => {
            let answer = Output::Answered {
                letter,
                number,
                stores: count,
            };
            printing::put_output(out, at, n as usize, answer)
        }
        Said::Store { at: place, decides } => {
            put_counted(out, at, n, letter, place as u64, one_if(decides) as u64)
        }
        Said::Hash(h) => put_counted(out, at, n, letter, 0, h),
        Said::Numbers => put_numbered(out, at, n, letter, words),
    }
}

// The line that input line n prints, at most 29,066 bytes.
pub fn print(
    out: &mut [u8],
    at: usize,
    n: u64,
    letter: u8,
    said: Option<Said>,
    words: &Words,
) -> usize
    requires { at + 29066 ≤ length out.old }
    ensures { Put out.old at (printed_of n letter (turn_at said words.now)) out.new result }
{
    match said {
        None => printing::put_output(out, at, n as usize, Output::Unknown),
        Some(said) => print_said(out, at, n, letter, said, words),
    }
}
