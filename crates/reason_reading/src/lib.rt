// Reading a refusal's sentence back: a reason is guessed from the text, composed again, and compared with the text.
#![tactic(auto)]

ghost use Rattle.std.specs.Prelude.{◌≡◌, ◌<◌, get_or};
ghost use Rattle.reason_reading.specs.Numbers.{with_digit, numbers_in};
ghost use Rattle.reason_reading.specs.Reading.{pick, after, guess, read_back};

use reasons::Reason;

// A number of value v that goes on with byte b, if that is a digit and the value stays below 2^64.
fn with_digit(v: usize, b: u8) -> Option<usize>
    ensures { result ≡ with_digit v b }
{
    if !b.is_ascii_digit() {
        return None;
    }
    v.checked_mul(10)?.checked_add(usize::from(b - b'0'))
}

// The number at place k of those that stand in the text, 0 where there are fewer.
fn number_at(text: &[u8], k: usize) -> usize
    ensures { result ≡ get_or (numbers_in text.now) k 0 }
{
    let mut left = k;
    let mut number = None;
    for &b in text {
        if let Some(v) = with_digit(number.unwrap_or(0), b) {
            number = Some(v);
            continue;
        }
        let Some(v) = number else {
            continue;
        };
        if left == 0 {
            return v;
        }
        left -= 1;
        number = None;
    }
    let Some(v) = number else {
        return 0;
    };
    if left == 0 { v } else { 0 }
}

// The same where the sentence has the number.
fn pick_number(text: &[u8], has: bool, k: usize) -> usize
    ensures { result ≡ pick has k (numbers_in text.now) }
{
    if has { number_at(text, k) } else { 0 }
}

// The place after a number that the sentence has or not.
fn place_after(has: bool, k: usize) -> usize
    requires { k < 4 }
    ensures { result ≡ after has k }
{
    if has { k + 1 } else { k }
}

fn byte_at(text: &[u8], i: usize) -> u8
    ensures { result ≡ get_or text.now i 0 }
{
    text.get(i).copied().unwrap_or(0)
}

// The reason that a text tells, if it tells one.
fn guess_of(text: &[u8]) -> Reason
    ensures { result ≡ guess text.now }
{
    let call = wording::call_named(byte_at(text, 0), byte_at(text, 1), byte_at(text, 2));
    let number = number_at(text, 0);
    let has_writer = wording::takes_writer(call);
    let has_page = wording::takes_page(call);
    let has_line = wording::takes_line(call);
    let page_at = place_after(has_writer, 1);
    let line_at = place_after(has_page, page_at);
    let holder_at = place_after(has_line, line_at);
    Reason {
        call,
        number,
        writer: pick_number(text, has_writer, 1),
        page: pick_number(text, has_page, page_at),
        line: pick_number(text, has_line, line_at),
        holder: pick_number(text, wording::meets_writer(number), holder_at),
    }
}

// The reason whose sentence the text is, if there is one.
pub fn read_back(text: &[u8]) -> Option<Reason>
    ensures { result ≡ read_back text.now }
{
    let reason = guess_of(text);
    let mut target = [0; 200];
    let Ok(length) = reasons::compose(reason, &mut target) else {
        return None;
    };
    if text == &target[..length] {
        Some(reason)
    } else {
        None
    }
}
