// The words filled with a whole state.
ghost use Rattle.std.specs.Prelude.{◌≡◌, true, ◌≤◌, length, replicate};
ghost use Rattle.bounded.specs.Tab.{tab};
ghost use Rattle.layout.specs.Layout.{Legal, image_length};
ghost use Rattle.words.specs.Words.{word};
ghost use Rattle.replay.specs.Table.{pages_apart, home_of};
ghost use Rattle.replay.specs.Map.{page_frames};
ghost use Rattle.state.specs.Wide.{wide_of};
ghost use Rattle.operations.specs.Operations.{is_idle};
ghost use Rattle.validity.specs.Validity.{state_ok};
ghost use Rattle.refinement.specs.Mount.{quiet_state, copying};
ghost use Rattle.state_words.specs.Decoded.{decoded, with_table, with_wide};
ghost use Rattle.state_pending.specs.Put.{with_pending};
ghost use Rattle.call_mount.specs.Entries.{map_back, with_entries};

use layout::Sizes;
use replay::Table;
use state::{Op, Pending};
use state_words::{HEAD, MAP, NO_WRITER, PREPARED, SIZES, TAIL, WIDE, WORD_COUNT, Words};

// Replaces the slots and the positions of their last records.
fn put_table(words: &mut Words, t: Table)
    ensures { decoded words.new ≡ with_table (decoded words.old) t }
{
    let _ = state_words::all_words(*words);
    for s in 0..16 {
        state_words::put_slot(words, s, replay::slot_in(t, s));
        state_words::put_last(words, s, t.last[s]);
    }
}

// A state in which no writer is open or prepared, next slot is 0 and nothing is pending; its map is still zeros.
pub fn put_quiet(words: &mut Words, z: Sizes, head: usize, tail: usize, t: Table)
    ensures { decoded words.new ≡ quiet_state z head tail t (replicate 1024 0) }
{
    *words = [0u64; WORD_COUNT];
    words[SIZES] = z.pages as u64;
    words[SIZES + 1] = z.slots as u64;
    words[SIZES + 2] = z.places as u64;
    words[SIZES + 3] = z.entries as u64;
    words[HEAD] = head as u64;
    words[TAIL] = tail as u64;
    words[PREPARED] = NO_WRITER;
    words[WIDE] = NO_WRITER;
    put_table(words, t);
}

// Puts each page's home in the map, which is part of the words that are lent.
fn homes_in(words: &mut [u64], image: &[u8], z: Sizes, t: Table)
    requires { Legal z × (image_length z ≤ length image.now) × (length words.old ≡ 1280) × (pages_apart z t.page ≡ true) }
    ensures { words.new ≡ map_back words.old (tab z.pages (home_of (page_frames (word image.now)) z t)) z.pages }
{
    let end = MAP + z.pages;
    names::put_homes(&mut words[MAP..end], image, z, t);
}

// The same of the state that the words are: entries past P stay.
pub fn put_homes(words: &mut Words, image: &[u8], z: Sizes, t: Table)
    requires { Legal z × (image_length z ≤ length image.now) × (pages_apart z t.page ≡ true) }
    ensures { decoded words.new ≡ with_entries (decoded words.old)
        (tab z.pages (home_of (page_frames (word image.now)) z t)) z.pages }
{
    let _ = state_words::all_words(*words);
    homes_in(words, image, z, t);
}

// Each entry is its own number.
fn put_numbers(entries: &mut [u64])
    ensures { entries.new ≡ tab (length entries.old) (λ p. p) }
{
    for (p, entry) in entries.iter_mut().enumerate() {
        *entry = p as u64;
    }
}

// Puts page i in frame i, in the map of the words that are lent.
fn own_in(words: &mut [u64], z: Sizes)
    requires { Legal z × (length words.old ≡ 1280) }
    ensures { words.new ≡ map_back words.old (tab z.pages (λ p. p)) z.pages }
{
    let end = MAP + z.pages;
    put_numbers(&mut words[MAP..end]);
}

// The same of the state that the words are.
pub fn put_own(words: &mut Words, z: Sizes)
    requires { Legal z }
    ensures { decoded words.new ≡ with_entries (decoded words.old) (tab z.pages (λ p. p)) z.pages }
{
    let _ = state_words::all_words(*words);
    own_in(words, z);
}

// Replaces the wide transaction by one of n entries without a writer.
fn put_entries(words: &mut Words, n: usize, keys: [u64; 64])
    ensures { decoded words.new ≡ with_wide (decoded words.old) (wide_of 4 n keys) }
{
    let _ = state_words::all_words(*words);
    for (e, key) in keys.iter().enumerate() {
        state_words::put_key(words, e, *key);
    }
    state_words::put_wide(words, state::NO_WRITER, n);
}

// The copying of n entries is pending, the store of their count made.
pub fn put_copying(words: &mut Words, n: usize, keys: [u64; 64])
    requires { (is_idle (decoded words.old).pending.op ≡ true) × (state_ok
        (with_pending (with_wide (decoded words.old) (wide_of 4 n keys)) copying) ≡ true) }
    ensures { decoded words.new ≡ with_pending (with_wide (decoded words.old) (wide_of 4 n keys)) copying }
{
    put_entries(words, n, keys);
    let none = [0u64; 8];
    state_pending::put_pending(
        words,
        Pending {
            op: Op::Copy,
            made: 1,
            line: none,
            second: none,
        },
    );
}
