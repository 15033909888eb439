// Meters: an event, and a venue's own moduli.
ghost use Rattle.std.specs.Prelude.{cond, ◌≡◌, eqb};
ghost use Rattle.refinement.specs.Calls.{event_of, load_of};
ghost use Rattle.state_words.specs.Decoded.{decoded};
ghost use Rattle.badgerdross.specs.Left.{Starts, Keeps, until_by};

use state_words::Words;

// Moves the meters of an event.
#[unsafe(no_mangle)]
pub extern "C" fn badgerdross_event(
    words: &mut Words,
    image: &mut [u8],
    kind: usize,
    meter: usize,
    amount: u64,
    moduli: &[u64],
    until: usize,
) -> usize
    ensures state { Starts result (decoded words.new) image.new
        (event_of (decoded words.old) image.old moduli.now kind meter amount) image.old (until_by until) }
    ensures words { Keeps result words.new words.old }
{
    let u = crate::until_of(until);
    answers::number_of(call_event::event(image, words, kind, meter, amount, moduli, u))
}

// Reads a venue's moduli from a text. A call that is turned back leaves the moduli lent as they are.
#[unsafe(no_mangle)]
pub extern "C" fn badgerdross_load(
    words: &Words,
    image: &[u8],
    text: &[u8],
    moduli: &mut [u64; 24],
) -> usize
    ensures number { result ≡ (load_of (decoded words.now) image.now text.now).number }
    ensures moduli { moduli.new ≡
        cond (eqb result 0) (load_of (decoded words.now) image.now text.now).moduli moduli.old }
{
    match call_load::load(image, words, text) {
        Ok(read) => {
            *moduli = read;
            0
        }
        Err(row) => usize::from(row),
    }
}
