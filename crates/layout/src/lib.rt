// Where each word of an image lies (document 01, "The image"), in words from its start.
#![tactic(auto)]

ghost use Rattle.std.specs.Prelude.{◌≡◌, ◌+◌, ◌%◌, ◌<◌, ◌≤◌};
ghost use Rattle.layout.specs.Layout.{sizes_ok, Legal, frames, layout_of, page_word, slot_word, place_of, record_word, padding_word, frame_word, line_word};
ghost use Rattle.layout.specs.Layout.{entry_word, image_length};

// Sizes of a store (document 01: P, S and J; document 02, L14: L).
#[derive(Clone, Copy, Debug, PartialEq, Eq)]
pub struct Sizes {
    pub pages: usize,
    pub slots: usize,
    pub places: usize,
    pub entries: usize,
}

// The header's words: P, S, J, the layout, head and tail; then, of layout 2, how many entries are counted, and L.
pub const PAGES_WORD: usize = 0;

pub const SLOTS_WORD: usize = 1;

pub const PLACES_WORD: usize = 2;

pub const LAYOUT_WORD: usize = 3;

pub const HEAD_WORD: usize = 4;

pub const TAIL_WORD: usize = 5;

pub const COUNT_WORD: usize = 6;

pub const ENTRIES_WORD: usize = 7;

// Whether the sizes are in their ranges (row 3).
pub fn sizes_ok(z: Sizes) -> bool
    ensures { result ≡ sizes_ok z }
{
    (1 <= z.pages)
        & (z.pages <= 1024)
        & (1 <= z.slots)
        & (z.slots <= 16)
        & (z.slots <= z.places)
        & (z.places <= 256)
        & (z.entries <= 64)
}

// The layout's number.
pub fn layout_of(z: Sizes) -> u64
    ensures { result ≡ layout_of z }
{
    if z.entries == 0 { 1 } else { 2 }
}

// The number of frames.
fn frame_count(z: Sizes) -> usize
    requires { Legal z }
    ensures { result ≡ frames z }
{
    z.pages + z.slots
}

// The page table's word of page p.
pub fn page_word(p: usize) -> usize
    requires { p < 1024 }
    ensures { result ≡ page_word p }
{
    8 + p
}

// The first of the three words of slot s.
pub fn slot_word(z: Sizes, s: usize) -> usize
    requires { Legal z × (s ≤ z.slots) }
    ensures { result ≡ slot_word z s }
{
    8 + z.pages + 3 * s
}

// The place of position q. Positions are below 2J, so that no division is made for one.
pub fn place_of(z: Sizes, q: usize) -> usize
    requires { Legal z }
    ensures { result ≡ place_of z q }
{
    if q < z.places {
        return q;
    }
    let past = q - z.places;
    if past < z.places {
        return past;
    }
    q % z.places
}

// The first of the four words of position q.
pub fn record_word(z: Sizes, q: usize) -> usize
    requires { Legal z }
    ensures { result ≡ record_word z q }
{
    8 + z.pages + 3 * z.slots + 4 * place_of(z, q)
}

// The first word past the journal.
pub fn padding_word(z: Sizes) -> usize
    requires { Legal z }
    ensures { result ≡ padding_word z }
{
    8 + z.pages + 3 * z.slots + 4 * z.places
}

// The first word of the first frame.
pub fn frame_word(z: Sizes) -> usize
    requires { Legal z }
    ensures { result ≡ frame_word z }
{
    (padding_word(z) + 7) / 8 * 8
}

// The first of the eight words of line l of frame f.
pub fn line_word(z: Sizes, f: usize, l: usize) -> usize
    requires { Legal z × (f < frames z) × (l < 64) }
    ensures { result ≡ line_word z f l }
{
    frame_word(z) + 512 * f + 8 * l
}

// The first of the nine words of entry e, or the image's end.
pub fn entry_word(z: Sizes, e: usize) -> usize
    requires { Legal z × (e ≤ z.entries) }
    ensures { result ≡ entry_word z e }
{
    frame_word(z) + 512 * frame_count(z) + 9 * e
}

// The image's length in bytes.
pub fn image_length(z: Sizes) -> usize
    requires { Legal z }
    ensures { result ≡ image_length z }
{
    8 * entry_word(z, z.entries)
}
