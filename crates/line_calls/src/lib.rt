// Read and recall into a target of t bytes, at first zero: R and E.
#![tactic(auto)]

ghost use Rattle.std.specs.Prelude.{◌≡◌, ◌≤◌, length};
ghost use Rattle.line_calls.specs.Calls.{line_said, read_into, read_said, recall_into, recall_said};
ghost use Rattle.state_words.specs.Decoded.{decoded};

use state_words::Words;
use text::Line;
use workbench::{Said, numbers};

// A refused call's answer, or the hash of the 64 bytes that a taken one put into its target.
fn said(number: usize, target: &[u8]) -> Said
    requires { number ≡ 0 → 64 ≤ length target.now }
    ensures { result ≡ line_said number target.now }
{
    if number == 0 {
        return Said::Hash(hashing::hash(&target[..64]));
    }
    Said::Answered { number, count: 0 }
}

// A read's answer, or the hash of the 64 bytes.
fn read_into(image: &[u8], words: &Words, line: Line, target: &mut [u8]) -> Said
    ensures { result ≡ read_into (decoded words.now) image.now line target.old }
{
    let answer = call_read::read(
        image,
        words,
        line.numbers[0] as usize,
        line.numbers[1] as usize,
        line.numbers[2] as usize,
        target,
    );
    said(answers::number_of(answer), target)
}

pub fn read(image: &[u8], words: &Words, line: Line) -> Option<Said>
    ensures { result ≡ read_said (decoded words.now) image.now line }
{
    let [_, _, _, t] = numbers::<4>(line)?; // R,w,p,l,t
    if t > 128 {
        return None;
    }
    let mut target = [0u8; 128];
    Some(read_into(image, words, line, &mut target[..t as usize]))
}

// A recall's answer, or the hash of the 64 bytes.
fn recall_into(image: &[u8], line: Line, target: &mut [u8]) -> Said
    ensures { result ≡ recall_into image.now line target.old }
{
    let number = recalling::recall(
        line.numbers[0] as usize,
        line.numbers[1] as usize,
        image,
        target,
    );
    said(number, target)
}

pub fn recall(image: &[u8], line: Line) -> Option<Said>
    ensures { result ≡ recall_said image.now line }
{
    let [_, _, t] = numbers::<3>(line)?; // E,p,l,t
    if t > 128 {
        return None;
    }
    let mut target = [0u8; 128];
    Some(recall_into(image, line, &mut target[..t as usize]))
}
