// Lines 0 and 63, the empty set, the full set and sets about half full.
use crate::out;

fn bits(m: u64) {
    out::name(b"mask");
    out::three(m, masks::has(m, 0) as u64, masks::has(m, 63) as u64);
    out::three(
        masks::with(m, 0),
        masks::with(m, 63),
        masks::exclusive_or(m, 18446744073709551615),
    );
    out::number(masks::count(m) as u64);
    out::end();
}

fn nth(m: u64, n: usize) {
    out::case(
        b"nth",
        n as u64,
        masks::nth_in(m, n) as u64,
        masks::nth_not_in(m, n) as u64,
    );
}

fn mask(m: u64) {
    bits(m);
    nth(m, 0);
    nth(m, 31);
    nth(m, 63);
    nth(m, 64);
}

fn pair(a: u64, b: u64) {
    out::name(b"pair");
    out::three(a, b, masks::exclusive_or(a, b));
    out::number(masks::are_disjoint(a, b) as u64);
    out::end();
}

// None and all; line 0 and line 63; 32 and 33 lines; every second line.
pub fn run() {
    mask(0);
    mask(18446744073709551615);
    mask(1);
    mask(9223372036854775808);
    mask(4294967295);
    mask(8589934591);
    mask(6148914691236517205);
    pair(0, 18446744073709551615);
    pair(18446744073709551615, 18446744073709551615);
    pair(1, 9223372036854775808);
    pair(18446744073709551615, 9223372036854775808);
    pair(6148914691236517205, 12297829382473034410);
}
