// Read on a state in words: 64 bytes into the lent buffer's start. No word changes.
#![tactic(auto)]

ghost use Rattle.std.specs.Prelude.{◌≡◌};
ghost use Rattle.answers.specs.Answers.{number_of, stores_of};
ghost use Rattle.refinement.specs.Calls.{read_row, read_bytes};
ghost use Rattle.state_words.specs.Decoded.{decoded};

use answers::Answer;
use rows::Refusal;
use state_words::Words;

// Reads a line as a writer sees it, a wide one its own entry first.
pub fn read(
    image: &[u8],
    words: &Words,
    writer: usize,
    page: usize,
    line: usize,
    target: &mut [u8],
) -> Answer
    ensures number { (number_of result ≡ read_row (decoded words.now) image.now writer page line target.old)
        × (stores_of result ≡ 0) }
    ensures bytes { target.new ≡ read_bytes (decoded words.now) image.now writer page line target.old }
{
    let z = state_words::sizes_in(words);
    let at = state_words::places_in(words);
    call_rows::quiet_row(z, at, words, image.len())?;
    if (writer > 3) | (page >= z.pages) | (line > 63) | (target.len() < 64) {
        return Err(Refusal::BadArgument);
    }
    let e = state_lines::own_entry(at, words, writer, page, line);
    if e < at.count {
        entry_lines::read_entry(image, z, e, target);
        return Ok(0);
    }
    let s = state_held::slots::slot_of(z, words, page);
    let seen = state_lines::seen_frame(z, words, writer, page, s, line);
    lines::read_line(image, z, seen, line, target);
    Ok(0)
}
