// Load on a state in words: a venue's own moduli (document 02, L10). Nothing is stored and no word changes.
#![tactic(auto)]

ghost use Rattle.std.specs.Prelude.{◌≡◌, ℕ, ◌<◌, ◌≤◌, length, true};
ghost use Rattle.bounded.specs.Below.{some_below};
ghost use Rattle.layout.specs.Layout.{Legal, frames as frames_of, image_length};
ghost use Rattle.state.specs.State.{own_frame};
ghost use Rattle.refinement.specs.Frames.{frame_of};
ghost use Rattle.refinement.specs.Calls.{load_of};
ghost use Rattle.call_load.specs.Loaded.{loaded_of, meter_high};
ghost use Rattle.state_words.specs.Decoded.{decoded};

use layout::Sizes;
use rows::Refusal;
use state_words::Words;

// Row 27: whether a stored meter is not below its modulus.
fn is_high(image: &[u8], z: Sizes, words: &Words, moduli: &[u64; 24]) -> bool
    requires { Legal z × (image_length z ≤ length image.now)
        × ((l : ℕ) → frame_of (own_frame (decoded words.now)) z (decoded words.now).table 0 l < frames_of z) }
    ensures { result ≡ some_below 24 (meter_high z image.now (decoded words.now) moduli.now) }
{
    let s = state_held::slots::slot_of(z, words, 0);
    for m in 0..24 {
        let f = state_lines::committed_at(z, words, 0, s, m);
        if moduli[m] <= image::read_line_word(image, z, f, m, 0) {
            return true;
        }
    }
    false
}

// Loads the moduli of a text.
pub fn load(image: &[u8], words: &Words, text: &[u8]) -> Result<[u64; 24], Refusal>
    ensures { loaded_of result ≡ load_of (decoded words.now) image.now text.now }
{
    let z = state_words::sizes_in(words);
    let at = state_words::places_in(words);
    call_rows::quiet_row(z, at, words, image.len())?;
    let moduli = moduli_text::read_moduli(text)?;
    if is_high(image, z, words, &moduli) {
        return Err(Refusal::MeterNotBelow);
    }
    Ok(moduli)
}
