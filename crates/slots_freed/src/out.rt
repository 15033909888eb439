// What a call gave, as numbers.
use answers::Answer;

// A checksum with one answer more: the stores of a taken call, or 1,000 times a refused one's number.
fn summed(sum: u64, a: Answer) -> u64 {
    let code = match a {
        Ok(stores) => stores as u64 % 1000,
        Err(_) => 1000 * (answers::number_of(a) as u64 % 100),
    };
    (31 * (sum % 4294967291) + code) % 4294967291
}

// The checksum after a call and its run, and the call's line if it frees a slot, prepares, confirms or withdraws.
pub fn shown(sum: u64, call: usize, answer: Answer, ran: Answer, image: &[u8]) -> u64 {
    let sum = summed(summed(sum, answer), ran);
    let kind = call / 10000000000 % 100;
    if (kind < 8) | (kind == 10) {
        return sum;
    }
    io::print_decimal(1, summed(0, answer));
    io::write_all(1, b",");
    io::print_decimal(1, hashing::hash(image));
    io::write_all(1, b",");
    io::print_decimal(1, sum);
    io::write_all(1, b"\n");
    sum
}
