// L, Y and U: what later calls are lent, a byte of the buffer, a word of the buffer.
#![tactic(auto)]

ghost use Rattle.std.specs.Prelude.{◌≡◌, length};
ghost use Rattle.buffer_edits.specs.Edits.{lend_said, lent_by, byte_said, byte_set, word_said, word_set};

use text::Line;
use workbench::{Said, edited, numbers};

// Later calls are lent the first n of the buffer's bytes.
pub fn lend(size: usize, line: Line) -> Option<Said>
    ensures { result ≡ lend_said size line }
{
    let [n] = numbers::<1>(line)?;
    if n as usize > size {
        return None;
    }
    Some(edited())
}

// What they are lent then, of a line that has the form, and as before of another.
pub fn lent_by(lent: usize, size: usize, line: Line) -> usize
    ensures { result ≡ lent_by lent size line }
{
    if lend(size, line).is_some() {
        return line.numbers[0] as usize;
    }
    lent
}

// A byte of the buffer becomes v.
pub fn set_byte(buffer: &mut [u8], line: Line) -> Option<Said>
    ensures said { result ≡ byte_said (length buffer.old) line }
    ensures bytes { buffer.new ≡ byte_set buffer.old line }
{
    let [at, v] = numbers::<2>(line)?;
    let at = at as usize;
    let v = u8::try_from(v).ok()?;
    if at >= buffer.len() {
        return None;
    }
    buffer[at] = v;
    Some(edited())
}

// A word of the buffer becomes v.
pub fn set_word(buffer: &mut [u8], line: Line) -> Option<Said>
    ensures said { result ≡ word_said (length buffer.old) line }
    ensures bytes { buffer.new ≡ word_set buffer.old line }
{
    let [i, v] = numbers::<2>(line)?;
    let i = i as usize;
    if i >= buffer.len() / 8 {
        return None;
    }
    image_words::store_word(buffer, i, v);
    Some(edited())
}
