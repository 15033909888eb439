// The service screen: a refusal as a sentence, and a sentence read back.
ghost use Rattle.std.specs.Prelude.{cond, ◌≡◌, eqb, length};
ghost use Rattle.reasons.specs.Sentence.{compose_row, composed_in, sentence};
ghost use Rattle.reason_reading.specs.Reading.{read_back};
ghost use Rattle.state_words.specs.Decoded.{decoded};
ghost use Rattle.badgerdross.specs.Told.{reason_by, read_number, read_refusal};

use rows::Refusal;
use state_words::Words;

// Composes the sentence of a refusal (`struct badgerdross_refusal`) at the start of target, and gives its length.
#[unsafe(no_mangle)]
pub extern "C" fn badgerdross_sentence(
    words: &Words,
    refusal: &[usize; 8],
    target: &mut [u8],
    count: &mut usize,
) -> usize
    ensures number { result ≡ compose_row (reason_by (decoded words.now) refusal.now) (length target.old) }
    ensures bytes { target.new ≡ composed_in (reason_by (decoded words.now) refusal.now) target.old }
    ensures count { count.new ≡
        cond (eqb result 0) (length (sentence (reason_by (decoded words.now) refusal.now))) count.old }
{
    let g = *refusal;
    let reason = refusals::reason_met(words, g[0], g[1], g[2], g[3], g[4], g[5], g[6]);
    match reasons::compose(reason, target) {
        Ok(length) => {
            *count = length;
            0
        }
        Err(refusal) => usize::from(refusal),
    }
}

// Reads a sentence back. Any other text is 11, and leaves the numbers lent as they are.
#[unsafe(no_mangle)]
pub extern "C" fn badgerdross_reading(text: &[u8], refusal: &mut [usize; 8]) -> usize
    ensures number { result ≡ read_number (read_back text.now) }
    ensures refusal { refusal.new ≡ read_refusal (read_back text.now) refusal.old }
{
    match reason_reading::read_back(text) {
        Some(r) => {
            *refusal = [r.call, r.number, r.writer, r.page, r.line, 0, 0, r.holder];
            0
        }
        None => usize::from(Refusal::BadArgument),
    }
}
