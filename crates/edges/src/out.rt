// A case's line: its name, then numbers, each after a comma.
pub fn name(s: &[u8]) {
    io::write_all(1, s);
}

pub fn number(v: u64) {
    io::write_all(1, b",");
    io::print_decimal(1, v);
}

pub fn three(a: u64, b: u64, c: u64) {
    number(a);
    number(b);
    number(c);
}

pub fn end() {
    io::write_all(1, b"\n");
}

// A case of three numbers.
pub fn case(s: &[u8], a: u64, b: u64, c: u64) {
    name(s);
    three(a, b, c);
    end();
}
