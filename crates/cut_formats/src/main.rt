// A format cut after every count of stores, from none to all, over four buffers: zeros; noise; a used image of other sizes; one of layout 2 whose word 6
// counts an entry. P=2, S=1, J=2, so that it has 1,561 stores. For each cut five things are told: the numbers of a mount and of a recall of what is left, of
// a begin on the words that the format left, and of a mount after a second format, run to its end; and whether the bytes past the image, and with no store
// made all of them, are the old ones. A line is printed where they change.
#![tactic(auto)]

use call_write::Span;
use layout::Sizes;
use op_stores::Until;
use state_words::WORD_COUNT;

// What a cut comes to.
#[derive(Clone, Copy, Debug, PartialEq, Eq)]
struct Told {
    mount: usize,
    recall: usize,
    begin: usize,
    again: usize,
    kept: bool,
}

fn sizes(entries: usize) -> Sizes {
    Sizes {
        pages: 2,
        slots: 1,
        places: 2,
        entries,
    }
}

fn first_byte() -> Span {
    Span {
        page: 0,
        line: 0,
        offset: 0,
        length: 1,
    }
}

// Bytes that follow no rule that a mount knows.
fn make_noise(image: &mut [u8; 12552]) {
    let mut seed = 1u64;
    for byte in image.iter_mut() {
        seed = seed * 75 % 65537;
        *byte = (seed % 256) as u8;
    }
}

// An image of one page, with a committed line.
fn make_used(image: &mut [u8; 12552]) {
    let mut words = [0u64; WORD_COUNT];
    let z = Sizes {
        pages: 1,
        slots: 1,
        places: 3,
        entries: 0,
    };
    let _ = call_mount::format_whole(image, &mut words, z);
    let _ = call_begin::begin(&mut words, 0);
    let _ = call_write::write(image, &mut words, 0, first_byte(), b"A", Until::End);
    let _ = call_commit::commit(image, &mut words, 0, Until::End);
}

// An image of layout 2 whose wide round was cut after its commit's first store.
fn make_wide(image: &mut [u8; 12552]) {
    let mut words = [0u64; WORD_COUNT];
    let _ = call_mount::format_whole(image, &mut words, sizes(1));
    let _ = call_begin::begin_wide(&mut words, 0);
    let _ = call_write::write(image, &mut words, 0, first_byte(), b"A", Until::End);
    let _ = call_commit::commit(image, &mut words, 0, Until::Asked);
    let _ = call_step::run(image, &mut words, 1);
}

// A format of the old bytes, cut after k stores.
fn cut(old: [u8; 12552], k: usize) -> Told {
    let mut image = old;
    let mut words = [0u64; WORD_COUNT];
    let mut other = [0u64; WORD_COUNT];
    let mut line = [0u8; 64];
    let _ = call_mount::format(&mut image, &mut words, sizes(0), Until::Asked);
    let _ = call_step::run(&mut image, &mut words, k);
    let from = if k == 0 { 0 } else { 12480 };
    let kept = image[from..] == old[from..];
    let mount = answers::number_of(call_mount::mount(&image, &mut other));
    let recall = recalling::recall(0, 0, &image, &mut line);
    let begin = answers::number_of(call_begin::begin(&mut words, 0));
    let _ = call_mount::format(&mut image, &mut words, sizes(0), Until::End);
    let again = answers::number_of(call_mount::mount(&image, &mut other));
    Told {
        mount,
        recall,
        begin,
        again,
        kept,
    }
}

fn show(k: usize, t: Told) {
    for number in [k, t.mount, t.recall, t.begin, t.again] {
        io::print_decimal(1, number as u64);
        io::write_all(1, b" ");
    }
    io::write_all(1, if t.kept { b"kept\n" } else { b"lost\n" });
}

// Every cut of a format of these bytes.
fn show_cuts(name: &[u8], old: &[u8; 12552]) {
    io::write_all(1, name);
    let mut last = None;
    for k in 0..1563 {
        let told = cut(*old, k);
        if last != Some(told) {
            show(k, told);
        }
        last = Some(told);
    }
}

fn main() {
    let mut image = [0u8; 12552];
    show_cuts(b"zeros\n", &image);
    make_noise(&mut image);
    show_cuts(b"noise\n", &image);
    make_used(&mut image);
    show_cuts(b"used\n", &image);
    make_wide(&mut image);
    show_cuts(b"wide\n", &image);
}
