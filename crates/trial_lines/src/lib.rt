// The lines of a trial: a setting, then rounds; and the line that is printed (request L11).
#![tactic(auto)]

pub mod output;

ghost use Rattle.std.specs.Prelude.{◌≡◌, List, ℕ, ◌≤◌, replicate};
ghost use Rattle.text.specs.Fields.{parsed};
ghost use Rattle.trial_lines.specs.Lines.{work_of, first, with_setting, with_round, acted};

use layout::Sizes;
use state_words::Words;
use trials::Trial;

// The trial, the lines read, and whether the first gave a setting.
#[derive(Clone, Copy)]
pub struct Session {
    pub trial: Trial,
    pub lines: usize,
    pub set: bool,
}

// No line is read yet, and the words are 0.
pub fn start() -> Session
    ensures { (img : List ℕ) → work_of result (replicate 1280 0) img ≡ first img }
{
    let trial = trials::nothing_tried();
    Session {
        trial,
        lines: 0,
        set: false,
    }
}

// The first line.
fn take_setting(s: Session, image: &mut [u8], words: &mut Words, text: &[u8]) -> Session
    ensures { work_of result words.new image.new
        ≡ with_setting (parsed 9 text.now) (work_of s words.old image.old) }
{
    let q = text::parse::parse(text, 9);
    let mut next = s;
    next.lines = 1;
    if q.count != 3 {
        next.set = false;
        return next;
    }
    let numbers = q.numbers;
    let sizes = Sizes {
        pages: numbers[0] as usize,
        slots: numbers[1] as usize,
        places: numbers[2] as usize,
        entries: 0,
    };
    let trial = trials::start(image, words, sizes);
    next.trial = trial;
    next.set = trial.number == 0;
    next
}

// Another line.
fn take_round(s: Session, image: &mut [u8], words: &mut Words, text: &[u8]) -> Session
    requires { s.lines ≤ 1000 }
    ensures { work_of result words.new image.new
        ≡ with_round (parsed 9 text.now) (work_of s words.old image.old) }
{
    let q = text::parse::parse(text, 9);
    let mut next = s;
    next.lines = s.lines + 1;
    let trial = s.trial;
    let count = q.count;
    if (count < 1) | (count > 64) {
        next.trial = trials::abandon(trial);
        return next;
    }
    let numbers = q.numbers;
    let byte = (s.lines % 256) as u8;
    next.trial = trials::rounds::play(trial, image, words, &numbers[..count], byte);
    next
}

// One line more, which stands after a letter and a comma.
pub fn take_line(s: Session, image: &mut [u8], words: &mut Words, text: &[u8]) -> Session
    ensures { work_of result words.new image.new
        ≡ acted (parsed 9 text.now) (work_of s words.old image.old) }
{
    if s.lines == 0 {
        return take_setting(s, image, words, text);
    }
    if !s.set | (s.lines > 1000) {
        return s;
    }
    take_round(s, image, words, text)
}
