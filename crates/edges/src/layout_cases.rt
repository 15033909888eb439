// The layout of document 01's example image and of the largest and the smallest, and each bound of the sizes.
ghost use Rattle.layout.specs.Layout.{Legal};

use crate::out;
use layout::Sizes;

// The words of the last page, of the first slot and of the journal.
fn tables(z: Sizes)
    requires { Legal z }
{
    let page = layout::page_word(z.pages - 1);
    let slot = layout::slot_word(z, 0);
    let journal = layout::slot_word(z, z.slots);
    out::case(b"tables", page as u64, slot as u64, journal as u64);
}

// The words of the padding and of the first frame, and the length in bytes.
fn frames(z: Sizes)
    requires { Legal z }
{
    let padding = layout::padding_word(z);
    let frame = layout::frame_word(z);
    let length = layout::image_length(z);
    out::case(b"frames", padding as u64, frame as u64, length as u64);
}

// The words of the first line, of the last line of frame 0 and of the last line of all.
fn lines(z: Sizes)
    requires { Legal z }
{
    let first = layout::line_word(z, 0, 0);
    let next = layout::line_word(z, 0, 63);
    let last = layout::line_word(z, z.pages + z.slots - 1, 63);
    out::case(b"lines", first as u64, next as u64, last as u64);
}

// A position, its place, and the place's word.
fn place(z: Sizes, q: usize)
    requires { Legal z }
{
    out::case(
        b"place",
        q as u64,
        layout::place_of(z, q) as u64,
        layout::record_word(z, q) as u64,
    );
}

fn image(z: Sizes)
    requires { Legal z }
{
    out::case(b"image", z.pages as u64, z.slots as u64, z.places as u64);
    tables(z);
    frames(z);
    lines(z);
    place(z, z.places - 1);
    place(z, z.places);
    place(z, 2 * z.places - 1);
}

fn sizes(p: usize, s: usize, j: usize) {
    out::name(b"sizes");
    out::three(p as u64, s as u64, j as u64);
    out::number(layout::sizes_ok(Sizes {
        pages: p,
        slots: s,
        places: j,
        entries: 0,
    }) as u64);
    out::end();
}

fn bounds() {
    sizes(1, 1, 1);
    sizes(1024, 16, 256);
    sizes(1, 16, 16);
    sizes(0, 1, 1);
    sizes(1025, 16, 256);
    sizes(1, 0, 1);
    sizes(1024, 17, 256);
    sizes(2, 1, 0);
    sizes(1, 16, 15);
    sizes(1024, 16, 257);
}

pub fn run() {
    image(Sizes {
        pages: 2,
        slots: 1,
        places: 2,
        entries: 0,
    });
    image(Sizes {
        pages: 1024,
        slots: 16,
        places: 256,
        entries: 0,
    });
    image(Sizes {
        pages: 1,
        slots: 1,
        places: 1,
        entries: 0,
    });
    bounds();
}
