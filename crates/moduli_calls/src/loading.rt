// A load: its text is a part of the buffer, its image the bytes lent.
ghost use Rattle.std.specs.Prelude.{◌≡◌, take};
ghost use Rattle.hashing.specs.Hash.{hash_of};
ghost use Rattle.state_words.specs.Decoded.{decoded};
ghost use Rattle.refinement.specs.Calls.{load_of};
ghost use Rattle.moduli_calls.specs.Calls.{moduli_bytes, loaded_said, table_by, load_said, table_loaded};

use state_words::Words;
use text::Line;
use workbench::moduli::Moduli;
use workbench::{Said, numbers};

// The hash of the moduli, each as 8 bytes.
fn hash_moduli(moduli: [u64; 24]) -> u64
    ensures { result ≡ hash_of (moduli_bytes moduli) }
{
    let mut bytes = [0u8; 192];
    for i in 0..24 {
        words::put_word(&mut bytes, 8 * i, moduli[i]);
    }
    hashing::hash(&bytes)
}

// A load of this text; a taken one replaces the table.
fn load_text(image: &[u8], words: &Words, table: &mut Moduli, text: &[u8]) -> Said
    ensures said { result ≡ loaded_said (load_of (decoded words.now) image.now text.now) }
    ensures table { table.new
        ≡ table_by table.old (load_of (decoded words.now) image.now text.now) }
{
    match call_load::load(image, words, text) {
        Ok(moduli) => {
            *table = Moduli::all_lent(moduli);
            Said::Hash(hash_moduli(moduli))
        }
        Err(row) => Said::Answered {
            number: usize::from(row),
            count: 0,
        },
    }
}

// The text is a part of the whole buffer; the image is what is lent of it.
pub fn load(
    buffer: &[u8],
    words: &Words,
    table: &mut Moduli,
    lent: usize,
    line: Line,
) -> Option<Said>
    ensures said { result ≡ load_said (decoded words.now) (take lent buffer.now) buffer.now line }
    ensures table { table.new
        ≡ table_loaded (decoded words.now) (take lent buffer.now) buffer.now table.old line }
{
    let [at, n] = numbers::<2>(line)?; // l,at,n
    let end = at.checked_add(n)?;
    let text = buffer.get(at as usize..end as usize)?;
    let k = lent.min(buffer.len());
    Some(load_text(&buffer[..k], words, table, text))
}
