// What try_sizes prints of a setting: the rounds done and abandoned, and the stores by what they were for.
ghost use Rattle.std.specs.Prelude.{◌+◌, ◌≤◌, length};
ghost use Rattle.number_text.specs.Text.{Put};
ghost use Rattle.trial_lines.specs.Lines.{spent_text, PutCounts, PutResponse};

use crate::Session;
use number_text::put_after;
use trials::{Spent, Trial};

// The stores by what they were for.
fn put_spent(out: &mut [u8], at: usize, s: Spent) -> usize
    requires { at + 84 ≤ length out.old }
    ensures { Put out.old at (spent_text s) out.new result }
{
    let next = put_after(out, at, b',', s.written);
    let next = put_after(out, next, b',', s.journal);
    let next = put_after(out, next, b',', s.copies);
    put_after(out, next, b',', s.tables)
}

// The rounds done and abandoned, and the stores.
fn put_counts(out: &mut [u8], t: Trial) -> usize
    requires { 126 ≤ length out.old }
    ensures { PutCounts t out.old out.new result }
{
    let next = decimals::put_decimal(out, 0, t.done);
    let next = put_after(out, next, b',', t.abandoned);
    let next = put_spent(out, next, t.spent);
    decimals::put_byte(out, next, b'\n')
}

// The response, at the start of a buffer.
pub fn put_response(out: &mut [u8], s: Session) -> usize
    requires { 126 ≤ length out.old }
    ensures { PutResponse s out.old out.new result }
{
    if s.set {
        return put_counts(out, s.trial);
    }
    let next = decimals::put_byte(out, 0, b'?');
    decimals::put_byte(out, next, b'\n')
}
