// Reasons in words: a refusal as a sentence for the service screen.
#![tactic(auto)]

ghost use Rattle.std.specs.Prelude.{◌≡◌, ◌+◌, ◌<◌, ◌≤◌, length};
ghost use Rattle.number_text.specs.Text.{Put};
ghost use Rattle.wording.specs.Calls.{call_count, number_count};
ghost use Rattle.reasons.specs.Sentence.{opening, field, page_label, holder_label, closing, composed, composed_in};

use rows::Refusal;

// A refused call, the number of the row that turned it back, and what it met: the writer, page and line that it was given
// and the lowest writer in its way. Where the call is given none, or none is in its way, the field says nothing.
#[derive(Clone, Copy, Debug, PartialEq, Eq)]
pub struct Reason {
    pub call: usize,
    pub number: usize,
    pub writer: usize,
    pub page: usize,
    pub line: usize,
    pub holder: usize,
}

// The call, the number and the number's text, at the start of the buffer.
fn put_opening(out: &mut [u8], call: usize, number: usize) -> usize
    requires { (call < call_count) × (number < number_count) × (200 ≤ length out.old) }
    ensures { Put out.old 0 (opening call number) out.new result }
{
    let next = wording::put_name(out, 0, call);
    let next = wording::put_text(out, next, b" refused (");
    let next = decimals::put_decimal(out, next, number as u64);
    let next = wording::put_text(out, next, b"): ");
    wording::put_reason(out, next, number)
}

// A number after its label, where the sentence has it.
fn put_field(out: &mut [u8], at: usize, has: bool, label: &[u8], v: usize) -> usize
    requires { at + length label.now + 20 ≤ length out.old }
    ensures { Put out.old at (field has label.now v) out.new result }
{
    if !has {
        return at;
    }
    let next = wording::put_text(out, at, label);
    decimals::put_decimal(out, next, v as u64)
}

// A page comes after a writer, or is the first field.
fn page_label(later: bool) -> &'static [u8]
    ensures { result.now ≡ page_label later }
{
    if later { b", page " } else { b". Page " }
}

// A writer in the way comes after a page, or is the first field.
fn holder_label(later: bool) -> &'static [u8]
    ensures { result.now ≡ holder_label later }
{
    if later {
        b", held by writer "
    } else {
        b". Held by writer "
    }
}

// What the call was given, and the writer in its way.
fn put_closing(out: &mut [u8], at: usize, reason: Reason) -> usize
    requires { at + 121 ≤ length out.old }
    ensures { Put out.old at (closing reason) out.new result }
{
    let has_writer = wording::takes_writer(reason.call);
    let has_page = wording::takes_page(reason.call);
    let has_line = wording::takes_line(reason.call);
    let met = wording::meets_writer(reason.number);
    let next = put_field(out, at, has_writer, b". Writer ", reason.writer);
    let next = put_field(out, next, has_page, page_label(has_writer), reason.page);
    let next = put_field(out, next, has_line, b", line ", reason.line);
    let next = put_field(out, next, met, holder_label(has_page), reason.holder);
    decimals::put_byte(out, next, b'.')
}

// Composes the sentence at the start of target, and gives its length. A target under 200 bytes, or a number that the call cannot return, is 11.
pub fn compose(reason: Reason, target: &mut [u8]) -> Result<usize, Refusal>
    ensures value { result ≡ composed reason (length target.old) }
    ensures target_after { target.new ≡ composed_in reason target.old }
{
    if target.len() < 200 || !wording::can_return(reason.call, reason.number) {
        return Err(Refusal::BadArgument);
    }
    let next = put_opening(target, reason.call, reason.number);
    Ok(put_closing(target, next, reason))
}
