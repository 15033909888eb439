// The fresh image, by its words: what format stores. It stores nothing itself.
#![tactic(auto)]

ghost use Rattle.std.specs.Prelude.{◌≡◌, ◌<◌, get_or};
ghost use Rattle.layout.specs.Layout.{Legal};
ghost use Rattle.rows.specs.Numbers.{row_of};
ghost use Rattle.fresh.specs.Fresh.{fresh_header, fresh_word, fresh_table, format_row};

use layout::Sizes;
use replay::Table;
use rows::Refusal;

// Word a of its header: head and tail 0, no entry counted.
fn header_word(z: Sizes, a: usize) -> u64
    requires { a < 8 }
    ensures { result ≡ get_or (fresh_header z) a 0 }
{
    match a {
        0 => z.pages as u64,
        1 => z.slots as u64,
        2 => z.places as u64,
        3 => layout::layout_of(z),
        7 => z.entries as u64,
        _ => 0,
    }
}

// Word a of a fresh image: page i in frame i, slot s free with spare P + s, all else zero.
pub fn fresh_word(z: Sizes, a: usize) -> u64
    requires { Legal z }
    ensures { result ≡ fresh_word z a }
{
    if a < 8 {
        return header_word(z, a);
    }
    let p = a - 8;
    if p < z.pages {
        return p as u64;
    }
    let i = p - z.pages;
    if i < 3 * z.slots {
        return journal::slots::word_of_slot(journal::slots::free_slot(z.pages + i / 3), i % 3);
    }
    0
}

// The slots of a fresh image.
pub fn fresh_table(z: Sizes) -> Table
    requires { Legal z }
    ensures { result ≡ fresh_table z }
{
    let mut t = replay::empty_table();
    for s in 0..z.slots {
        t = replay::with_slot(t, s, journal::slots::free_slot(z.pages + s));
    }
    t
}

// The row that turns format back, if one does.
pub fn format_row(image: &[u8], z: Sizes) -> Result<(), Refusal>
    ensures { row_of result ≡ format_row z image.now }
{
    if !layout::sizes_ok(z) {
        return Err(Refusal::SizesOutOfRange);
    }
    if image.len() < layout::image_length(z) {
        return Err(Refusal::BufferTooShort);
    }
    Ok(())
}
