// What wear_by_frame prints: its 22 numbers, one a line.
ghost use Rattle.std.specs.Prelude.{◌≡◌, ◌+◌, ◌≤◌, length};
ghost use Rattle.number_text.specs.Text.{Put};
ghost use Rattle.wear_lines.specs.Lines.{ended};
ghost use Rattle.wear_lines.specs.Stands.{PutResponse};

// A number and a newline.
fn put_line(out: &mut [u8], at: usize, v: u64) -> usize
    requires { at + 21 ≤ length out.old }
    ensures { Put out.old at (ended v) out.new result }
{
    let next = decimals::put_decimal(out, at, v);
    decimals::put_byte(out, next, b'\n')
}

// The 22 numbers, at the start of a buffer.
pub fn put_response(out: &mut [u8], counts: &[u64]) -> usize
    requires { (length counts.now ≡ 22) × (462 ≤ length out.old) }
    ensures { PutResponse counts.now out.old out.new result }
{
    let mut next = 0;
    for k in 0..22 {
        next = put_line(out, next, counts[k]);
    }
    next
}
