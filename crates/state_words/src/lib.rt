// The state that the host keeps, as 1,280 words: this crate alone knows where each part stands. Any words are a state.
#![tactic(auto)]

pub mod parts;

ghost use Rattle.std.specs.Prelude.{◌≡◌, ◌+◌, ◌*◌, ◌<◌, get_or, set, length};
ghost use Rattle.bounded.specs.Below.{one};
ghost use Rattle.replay.specs.Table.{slot_in, with_slot, with_last};
ghost use Rattle.state.specs.Held.{is_open, held_at};
ghost use Rattle.state_words.specs.Decoded.{decoded, places_of, with_table, with_writers, with_head, with_tail, with_next, with_wide, with_nothing};
ghost use Rattle.state_words.specs.Decoded.{with_bitmap, with_opened, with_held, with_prepared, with_map};

use journal::Slot;
use layout::Sizes;
use state::Places;

pub const SIZES: usize = 0;

pub const HEAD: usize = 4;

pub const TAIL: usize = 5;

pub const NEXT: usize = 6;

pub const PREPARED: usize = 7;

pub const WIDE: usize = 8;

pub const COUNT: usize = 9;

pub const OPENED: usize = 10;

pub const PENDING: usize = 14;

pub const LINE: usize = 24;

pub const SECOND: usize = 32;

pub const PAGE: usize = 40;

pub const ORIGINAL: usize = 56;

pub const SPARE: usize = 72;

pub const BITMAP: usize = 88;

pub const LAST: usize = 104;

pub const HELD: usize = 120;

pub const KEYS: usize = 184;

pub const MAP: usize = 256;

pub const WORD_COUNT: usize = 1280;

pub type Words = [u64; WORD_COUNT];

// What stands for a writer where there is none, as a word.
pub const NO_WRITER: u64 = 4;

// The sizes of the image that the state belongs to.
pub fn sizes_in(words: &Words) -> Sizes
    ensures { result ≡ (decoded words.now).sizes }
{
    Sizes {
        pages: words[SIZES] as usize,
        slots: words[SIZES + 1] as usize,
        places: words[SIZES + 2] as usize,
        entries: words[SIZES + 3] as usize,
    }
}

// Head, tail, the next slot to try, the prepared writer, the wide one, and how many entries it uses.
pub fn places_in(words: &Words) -> Places
    ensures { result ≡ places_of (decoded words.now) }
{
    Places {
        head: words[HEAD] as usize,
        tail: words[TAIL] as usize,
        next: words[NEXT] as usize,
        prepared: words[PREPARED] as usize,
        wide: words[WIDE] as usize,
        count: words[COUNT] as usize,
    }
}

// Slot s of the table.
pub fn slot_at(words: &Words, s: usize) -> Slot
    requires { s < 16 }
    ensures { result ≡ slot_in (decoded words.now).table s }
{
    Slot {
        page: words[PAGE + s] as usize,
        original: words[ORIGINAL + s] as usize,
        spare: words[SPARE + s] as usize,
        bitmap: words[BITMAP + s],
    }
}

// The page of slot s, or 2^64 - 1.
pub fn page_at(words: &Words, s: usize) -> usize
    requires { s < 16 }
    ensures { result ≡ get_or (decoded words.now).table.page s 0 }
{
    words[PAGE + s] as usize
}

// The bitmap of slot s.
pub fn bitmap_at(words: &Words, s: usize) -> u64
    requires { s < 16 }
    ensures { result ≡ get_or (decoded words.now).table.bitmap s 0 }
{
    words[BITMAP + s]
}

// The position of the last live record of slot s, or 2^64 - 1.
pub fn last_at(words: &Words, s: usize) -> usize
    requires { s < 16 }
    ensures { result ≡ get_or (decoded words.now).table.last s 0 }
{
    words[LAST + s] as usize
}

// The lines of slot s that writer w holds.
pub fn held_at(words: &Words, w: usize, s: usize) -> u64
    requires { (w < 4) × (s < 16) }
    ensures { result ≡ held_at (decoded words.now).writers.held w s }
{
    words[HELD + 16 * w + s]
}

// Whether writer w is open.
pub fn open_at(words: &Words, w: usize) -> bool
    requires { w < 4 }
    ensures { result ≡ is_open (decoded words.now).writers.opened w }
{
    words[OPENED + w] != 0
}

// The key of entry e.
pub fn key_at(words: &Words, e: usize) -> u64
    requires { e < 64 }
    ensures { result ≡ get_or (decoded words.now).wide.keys e 0 }
{
    words[KEYS + e]
}

// The frame of page p.
pub fn entry_at(words: &Words, p: usize) -> usize
    requires { p < 1024 }
    ensures { result ≡ get_or (decoded words.now).map p 0 }
{
    words[MAP + p] as usize
}

// Replaces slot s.
pub fn put_slot(words: &mut Words, s: usize, v: Slot)
    requires { s < 16 }
    ensures { decoded words.new ≡ with_table (decoded words.old) (with_slot (decoded words.old).table s v) }
{
    words[PAGE + s] = v.page as u64;
    words[ORIGINAL + s] = v.original as u64;
    words[SPARE + s] = v.spare as u64;
    words[BITMAP + s] = v.bitmap;
}

// Replaces the bitmap of slot s.
pub fn put_bitmap(words: &mut Words, s: usize, m: u64)
    requires { s < 16 }
    ensures { decoded words.new ≡ with_table (decoded words.old) (with_bitmap (decoded words.old).table s m) }
{
    words[BITMAP + s] = m;
}

// Replaces the last position of slot s.
pub fn put_last(words: &mut Words, s: usize, q: usize)
    requires { s < 16 }
    ensures { decoded words.new ≡ with_table (decoded words.old) (with_last (decoded words.old).table s q) }
{
    words[LAST + s] = q as u64;
}

// Replaces the lines of slot s that writer w holds.
pub fn put_held(words: &mut Words, w: usize, s: usize, m: u64)
    requires { (w < 4) × (s < 16) }
    ensures { decoded words.new ≡ with_writers (decoded words.old)
        (with_held (decoded words.old).writers (set (decoded words.old).writers.held (16 * w + s) m)) }
{
    words[HELD + 16 * w + s] = m;
}

// Opens or closes writer w. No other word changes.
pub fn put_open(words: &mut Words, w: usize, b: bool)
    requires { w < 4 }
    ensures state { decoded words.new ≡ with_writers (decoded words.old)
        (with_opened (decoded words.old).writers (set (decoded words.old).writers.opened w b)) }
    ensures words { words.new ≡ set words.old (10 + w) (one b) }
{
    words[OPENED + w] = state::held::one_if(b) as u64;
}

// That there are 1,280 words: the logic knows the length of an array by value, and not of a lent one. The copy is not made.
pub fn all_words(words: Words) -> bool
    ensures { length words ≡ 1280 }
{
    true
}

// Sets head.
pub fn put_head(words: &mut Words, head: usize)
    ensures { decoded words.new ≡ with_head (decoded words.old) head }
{
    let _ = all_words(*words);
    words[HEAD] = head as u64;
}

// Sets tail.
pub fn put_tail(words: &mut Words, tail: usize)
    ensures { decoded words.new ≡ with_tail (decoded words.old) tail }
{
    let _ = all_words(*words);
    words[TAIL] = tail as u64;
}

// Sets the next slot to try.
pub fn put_next(words: &mut Words, next: usize)
    ensures { decoded words.new ≡ with_next (decoded words.old) next }
{
    let _ = all_words(*words);
    words[NEXT] = next as u64;
}

// Sets the wide writer, and how many entries it uses.
pub fn put_wide(words: &mut Words, writer: usize, count: usize)
    ensures { decoded words.new ≡ with_wide (decoded words.old)
        (record { writer = writer; count = count; keys = (decoded words.old).wide.keys }) }
{
    let _ = all_words(*words);
    words[WIDE] = writer as u64;
    words[COUNT] = count as u64;
}

// Replaces the key of entry e.
pub fn put_key(words: &mut Words, e: usize, key: u64)
    requires { e < 64 }
    ensures { decoded words.new ≡ with_wide (decoded words.old)
        (record {
          writer = (decoded words.old).wide.writer;
          count = (decoded words.old).wide.count;
          keys = set (decoded words.old).wide.keys e key;
        }) }
{
    words[KEYS + e] = key;
}

// Replaces the frame of page p.
pub fn put_entry(words: &mut Words, p: usize, frame: usize)
    requires { p < 1024 }
    ensures { decoded words.new ≡ with_map (decoded words.old) (set (decoded words.old).map p frame) }
{
    words[MAP + p] = frame as u64;
}

// Sets which writer is prepared.
pub fn put_prepared(words: &mut Words, w: usize)
    ensures { decoded words.new ≡ with_writers (decoded words.old) (with_prepared (decoded words.old).writers w) }
{
    let _ = all_words(*words);
    words[PREPARED] = w as u64;
}

// Nothing is pending.
pub fn put_nothing(words: &mut Words)
    ensures { decoded words.new ≡ with_nothing (decoded words.old) }
{
    let _ = all_words(*words);
    words[PENDING] = 0;
}
