// The line that a line of a script prints, in powerhit and in probe. Each part gives where the next one goes.
#![tactic(auto)]

ghost use Rattle.std.specs.Prelude.{[], ◌∷◌, ◌+◌, ◌≤◌, length};
ghost use Rattle.number_text.specs.Text.{Put};
ghost use Rattle.printing.specs.declared.Output.TheVariants.{Answered, Shown, Unknown};
ghost use Rattle.printing.specs.Output.{commas, fields_of, output_line};

use number_text::put_after;

// What a line prints after its number: a call's answer and stores, the byte that was read, or `?`.
#[derive(Clone, Copy)]
pub enum Output {
    Answered {
        letter: u8,
        number: usize,
        stores: usize,
    },
    Shown(u8),
    Unknown,
}

fn put_three(out: &mut [u8], at: usize, a: u8, b: u8, c: u8) -> usize
    requires { at + 3 ≤ length out.old }
    ensures { Put out.old at (a ∷ b ∷ c ∷ []) out.new result }
{
    let next = decimals::put_byte(out, at, a);
    let next = decimals::put_byte(out, next, b);
    decimals::put_byte(out, next, c)
}

// A call's letter, its answer and the stores made, and a dash.
fn put_answered(out: &mut [u8], at: usize, letter: u8, number: usize, stores: usize) -> usize
    requires { at + 47 ≤ length out.old }
    ensures { Put out.old at (commas (fields_of (Answered letter number stores))) out.new result }
{
    let next = put_three(out, at, b',', letter, b',');
    let next = decimals::put_decimal(out, next, number as u64);
    let next = put_after(out, next, b',', stores as u64);
    put_three(out, next, b',', b'-', b'\n')
}

// The byte that was read.
fn put_shown(out: &mut [u8], at: usize, byte: u8) -> usize
    requires { at + 47 ≤ length out.old }
    ensures { Put out.old at (commas (fields_of (Shown byte))) out.new result }
{
    let next = put_three(out, at, b',', b'R', b',');
    let next = put_three(out, next, b'0', b',', b'0');
    let next = put_after(out, next, b',', byte as u64);
    decimals::put_byte(out, next, b'\n')
}

// A line of another form.
fn put_unknown(out: &mut [u8], at: usize) -> usize
    requires { at + 47 ≤ length out.old }
    ensures { Put out.old at (commas (fields_of Unknown)) out.new result }
{
    let next = put_three(out, at, b',', b'?', b',');
    let next = put_three(out, next, b'?', b',', b'0');
    put_three(out, next, b',', b'-', b'\n')
}

// What stands after the line's number.
fn put_fields(out: &mut [u8], at: usize, output: Output) -> usize
    requires { at + 47 ≤ length out.old }
    ensures { Put out.old at (commas (fields_of output)) out.new result }
{
    match output {
        Output::Answered {
            letter,
            number,
            stores,
        } => put_answered(out, at, letter, number, stores),
        Output::Shown(byte) => put_shown(out, at, byte),
        Output::Unknown => put_unknown(out, at),
    }
}

// Puts the line of number n. No line has more than 67 bytes.
pub fn put_output(out: &mut [u8], at: usize, n: usize, output: Output) -> usize
    requires { at + 67 ≤ length out.old }
    ensures { Put out.old at (output_line n output) out.new result }
{
    let next = decimals::put_decimal(out, at, n as u64);
    put_fields(out, next, output)
}
