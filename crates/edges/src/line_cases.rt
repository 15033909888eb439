// Lines of document 01's example image, P=2, S=1, J=2: written, read, merged and copied from frame 0 to frame 2.
ghost use Rattle.std.specs.Prelude.{◌+◌, ◌≤◌, ◌<◌};

use crate::out;
use layout::Sizes;

// Two numbers that say which, and the words of a line.
fn eight(a: usize, b: usize, w: [u64; 8]) {
    out::three(a as u64, b as u64, w[0]);
    out::three(w[1], w[2], w[3]);
    out::three(w[4], w[5], w[6]);
    out::number(w[7]);
    out::end();
}

// Frame 0 starts at byte 192.
fn put(image: &mut [u8; 12480], l: usize, k: usize, v: u64)
    requires l_bound { l < 64 }
    requires k_bound { k < 8 }
{
    words::put_word(image, 192 + 64 * l + 8 * k, v);
}

fn read(image: &[u8; 12480], f: usize, l: usize, target: &mut [u8; 64])
    requires f_bound { f < 3 }
    requires l_bound { l < 64 }
{
    lines::read_line(
        image,
        Sizes {
            pages: 2,
            slots: 1,
            places: 2,
            entries: 0,
        },
        f,
        l,
        target,
    );
}

fn show(f: usize, l: usize, target: &[u8; 64]) {
    out::name(b"line");
    eight(f, l, runs::words_of(target));
}

fn line(image: &[u8; 12480], f: usize, l: usize)
    requires f_bound { f < 3 }
    requires l_bound { l < 64 }
{
    let mut target = [165u8; 64];
    read(image, f, l, &mut target);
    show(f, l, &target);
}

// 17 to 24, over and over.
fn pattern(s: &mut [u8; 64]) {
    runs::fill_words(s, 0, 8, 1735880461161533969);
}

// Line 5 of frame 0 with the first n bytes of s laid over it.
fn lay(image: &[u8; 12480], offset: usize, n: usize, s: &[u8; 64])
    requires { offset + n ≤ 64 }
{
    let w = lines::merged_line(
        image,
        Sizes {
            pages: 2,
            slots: 1,
            places: 2,
            entries: 0,
        },
        0,
        5,
        offset,
        s,
        n,
    );
    let words = w.words;
    eight(offset, n, words);
}

fn merge(image: &[u8; 12480], offset: usize, n: usize)
    requires { offset + n ≤ 64 }
{
    out::name(b"merge");
    let mut s = [0u8; 64];
    pattern(&mut s);
    lay(image, offset, n, &s);
}

// Frame 2 starts at byte 8,384.
fn put_line(image: &mut [u8; 12480], l: usize, target: &[u8; 64])
    requires { l < 64 }
{
    runs::copy_words(target, 0, image, 8384 + 64 * l, 8);
}

fn copy(image: &mut [u8; 12480], l: usize)
    requires { l < 64 }
{
    let mut target = [0u8; 64];
    read(image, 0, l, &mut target);
    put_line(image, l, &target);
    line(image, 2, l);
}

// Words of line 5 and the last word of line 63, of frame 0.
fn fill(image: &mut [u8; 12480]) {
    put(image, 5, 0, 578437695752307201);
    put(image, 5, 3, 18446744073709551615);
    put(image, 5, 7, 9);
    put(image, 63, 7, 7);
}

fn merges(image: &[u8; 12480]) {
    merge(image, 0, 1);
    merge(image, 63, 1);
    merge(image, 0, 64);
    merge(image, 28, 9);
}

// What lies about the copy of line 5.
fn about(image: &[u8; 12480]) {
    line(image, 2, 4);
    line(image, 2, 6);
    line(image, 1, 5);
    line(image, 0, 5);
}

fn cases(image: &mut [u8; 12480]) {
    fill(image);
    merges(image);
    line(image, 2, 5);
    copy(image, 5);
    copy(image, 63);
    about(image);
}

pub fn run() {
    let mut image = [0u8; 12480];
    cases(&mut image);
}
