// What calls give, as numbers.
use answers::Answer;
use state_words::Words;

// A refused call's number, 1,000 times.
fn refused(number: usize) -> u64 {
    1000 * (number as u64 % 100)
}

// The stores of a taken call, or 1,000 times a refused one's number.
pub fn code(a: Answer) -> u64 {
    match a {
        Ok(stores) => stores as u64,
        Err(_) => refused(answers::number_of(a)),
    }
}

// The first word of a line that a recall shows.
pub fn recalled(image: &[u8], page: usize, line: usize) -> u64 {
    let mut target = [0u8; 64];
    let number = recalling::recall(page, line, image, &mut target);
    if number != 0 {
        return refused(number);
    }
    image_words::read_word(&target, 0)
}

// The first word of a line that a writer reads.
pub fn read(image: &[u8], words: &Words, writer: usize, page: usize, line: usize) -> u64 {
    let mut target = [0u8; 64];
    let answer = call_read::read(image, words, writer, page, line, &mut target);
    let number = answers::number_of(answer);
    if number != 0 {
        return refused(number);
    }
    image_words::read_word(&target, 0)
}

// Writes a number and what follows it.
pub fn write_number(v: u64, end: &[u8]) {
    io::print_decimal(1, v);
    io::write_all(1, end);
}
