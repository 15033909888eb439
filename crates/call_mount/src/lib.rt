// Format and mount on words, which then are the state that the call finds or makes. A call that is turned back changes no word and no byte.
#![tactic(auto)]

mod filling;

ghost use Rattle.std.specs.Prelude.{◌≡◌};
ghost use Rattle.layout.specs.declared.Sizes.{Sizes};
ghost use Rattle.fresh.specs.Fresh.{format_bytes};
ghost use Rattle.refinement.specs.Mount.{mount_call, format_call};
ghost use Rattle.answers.specs.Answers.{number_of, answered_at};
ghost use Rattle.state_words.specs.Decoded.{decoded};
ghost use Rattle.call_mount.specs.Replacing.{replacing, FormatStarted};

use answers::Answer;
use layout::Sizes;
use op_stores::Until;
use state::Op;
use state_words::Words;

// Mounts an image: reads only. Entries that are counted are still to be copied: their copying is pending.
pub fn mount(image: &[u8], words: &mut Words) -> Answer
    ensures state { answered_at result (decoded words.new) ≡ replacing (decoded words.old) (mount_call image.now) }
    ensures words { (number_of result ≡ 0 → ⊥) → words.new ≡ words.old }
{
    let m = mount::judge(image)?;
    let z = m.sizes;
    let t = m.table;
    filling::put_quiet(words, z, m.head, m.tail, t);
    filling::put_homes(words, image, z, t);
    if m.count == 0 {
        return Ok(0);
    }
    filling::put_copying(words, m.count, m.keys);
    Ok(0)
}

// Asks for a format, whose state the words then are, and goes on with it as far as is said: asking changes no byte.
pub fn format(image: &mut [u8], words: &mut Words, z: Sizes, until: Until) -> Answer
    ensures started { FormatStarted result (decoded words.new) image.new z (decoded words.old) image.old until }
    ensures words { (number_of result ≡ 0 → ⊥) → words.new ≡ words.old }
{
    fresh::format_row(image, z)?;
    filling::put_quiet(words, z, 0, 0, fresh::fresh_table(z));
    filling::put_own(words, z);
    let at = state_words::places_in(words);
    op_stores::ask(image, z, at, words, Op::Format, until)
}

// The same run to its end, for a host that formats in one call. It tells no stores.
pub fn format_whole(image: &mut [u8], words: &mut Words, z: Sizes) -> Answer
    ensures state { answered_at result (decoded words.new) ≡ replacing (decoded words.old) (format_call z image.old) }
    ensures bytes { image.new ≡ format_bytes z image.old }
    ensures words { (number_of result ≡ 0 → ⊥) → words.new ≡ words.old }
{
    fresh::format_row(image, z)?;
    let _ = format(image, words, z, Until::End);
    Ok(0)
}
