// The form of a line of powerhit's script, by its letter and how many numbers follow it.
#![tactic(auto)]

ghost use Rattle.std.specs.Prelude.{◌≡◌};
ghost use Rattle.forms.specs.Forms.{as_line, form_of};

// The calls that a line asks for, beside format and read.
#[derive(Clone, Copy, Debug, PartialEq, Eq)]
pub enum Ask {
    Begin,
    Commit,
    Abort,
    Write,
    Consolidate,
    Checkpoint,
    Mount,
}

// What a line is.
#[derive(Clone, Copy, Debug, PartialEq, Eq)]
pub enum Form {
    Formats,
    Asks(Ask),
    Reads,
    Cuts,
    Other,
}

// A line's form.
#[tactic(auto, unfolding(crate::specs::Forms::form_of))]
pub fn form_of(formatted: bool, letter: u8, count: usize, numbers: &[u64; 69]) -> Form
    ensures { result ≡ form_of formatted (as_line letter count numbers.now) }
{
    match (letter, count) {
        (b'F', 3) => Form::Formats,
        _ if !formatted => Form::Other,
        (b'B', 1) => Form::Asks(Ask::Begin),
        (b'C', 1) => Form::Asks(Ask::Commit),
        (b'A', 1) => Form::Asks(Ask::Abort),
        (b'W', _) if calling::has_data(count, numbers) => Form::Asks(Ask::Write),
        (b'R', 4) => Form::Reads,
        (b'D', 1) => Form::Asks(Ask::Consolidate),
        (b'P', 0) => Form::Asks(Ask::Checkpoint),
        (b'X', 0) => Form::Asks(Ask::Mount),
        (b'K', 1) => Form::Cuts,
        _ => Form::Other,
    }
}
