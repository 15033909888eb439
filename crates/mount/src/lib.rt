// What a mount finds on any bytes.
#![tactic(auto)]

ghost use Rattle.std.specs.Prelude.{◌≡◌, ◌<◌, ◌≤◌, length};
ghost use Rattle.words.specs.Words.{word};
ghost use Rattle.mount.specs.Mount.{wide_word, sizes_from, mount_of, Judges};

use layout::Sizes;
use replay::Table;
use rows::Refusal;

// What a mount finds but for the map: the header with the slots and the keys of the entries that are counted.
#[derive(Clone, Copy)]
pub struct Judged {
    pub sizes: Sizes,
    pub head: usize,
    pub tail: usize,
    pub table: Table,
    pub count: usize,
    pub keys: [u64; 64],
}

// One of the header's last two words, which are read under layout 2 alone.
fn wide_word(image: &[u8], i: usize) -> usize
    requires { (64 ≤ length image.now) × (i < 8) }
    ensures { result ≡ wide_word (word image.now) i }
{
    if image_words::read_word(image, layout::LAYOUT_WORD) == 2 {
        return image_words::read_word(image, i) as usize;
    }
    0
}

// The sizes in an image's header.
fn sizes_from(image: &[u8]) -> Sizes
    requires { 64 ≤ length image.now }
    ensures { result ≡ sizes_from (word image.now) }
{
    let pages = image_words::read_word(image, layout::PAGES_WORD);
    let slots = image_words::read_word(image, layout::SLOTS_WORD);
    let places = image_words::read_word(image, layout::PLACES_WORD);
    let entries = wide_word(image, layout::ENTRIES_WORD);
    Sizes {
        pages: pages as usize,
        slots: slots as usize,
        places: places as usize,
        entries,
    }
}

// What the image holds, or the first of rows 1 to 7 that applies.
pub fn judge(image: &[u8]) -> Result<Judged, Refusal>
    ensures { Judges result (mount_of image.now) }
{
    if image.len() < 64 {
        return Err(Refusal::ImageTooShort);
    }
    let form = image_words::read_word(image, layout::LAYOUT_WORD);
    if !((form == 1) | (form == 2)) {
        return Err(Refusal::UnknownLayout);
    }
    let z = sizes_from(image);
    if !(layout::sizes_ok(z) & (form == layout::layout_of(z))) {
        return Err(Refusal::SizesOutOfRange);
    }
    if image.len() < layout::image_length(z) {
        return Err(Refusal::BufferTooShort);
    }
    let head = image_words::read_word(image, layout::HEAD_WORD) as usize;
    let tail = image_words::read_word(image, layout::TAIL_WORD) as usize;
    if !journal::records::positions_ok(z, head, tail) {
        return Err(Refusal::BadPositions);
    }
    let n = journal::records::live_count(z, head, tail);
    let count = wide_word(image, layout::COUNT_WORD);
    let keys = entries::read_keys(image, z, count);
    if !(journal::records::records_ok(image, z, tail, n) & entries::entries_ok(z, &keys, count)) {
        return Err(Refusal::BadRecord);
    }
    let table = replay::replayed(image, z, tail, n);
    if !names::table_ok(image, z, table) {
        return Err(Refusal::BadSlots);
    }
    Ok(Judged {
        sizes: z,
        head,
        tail,
        table,
        count,
        keys,
    })
}
