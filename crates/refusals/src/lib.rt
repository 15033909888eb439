// What a refused call met: what it was given and, for 14 and 18, the lowest writer in its way. A refused call leaves the
// state as it was, so this is read from the state that the call was given.
#![tactic(auto)]

ghost use Rattle.std.specs.Prelude.{◌≡◌, cond, ◌<◌};
ghost use Rattle.bounded.specs.Below.{first_below};
ghost use Rattle.state_words.specs.Decoded.{decoded};
ghost use Rattle.refusals.specs.Met.{holds_line, holds_slot, slot_met, line_holder, page_holder, event_holder, holder_met, reason_met};

use layout::Sizes;
use reasons::Reason;
use state_words::Words;

// The slot of a page, 16 where it has none or the sizes are out of their ranges.
fn slot_met(z: Sizes, words: &Words, p: usize) -> usize
    ensures { result ≡ slot_met z (decoded words.now).table.page p }
{
    if !layout::sizes_ok(z) {
        return 16;
    }
    let s = state_held::slots::slot_of(z, words, p);
    if s >= z.slots {
        return 16;
    }
    s
}

// Whether writer v, other than w, holds line l of slot s.
fn holds_line(words: &Words, w: usize, s: usize, l: usize, v: usize) -> bool
    requires { (v < 4) × (s < 16) × (l < 64) }
    ensures { result ≡ holds_line (decoded words.now).writers.held w s l v }
{
    v != w && masks::has(state_words::held_at(words, v, s), l)
}

// The lowest writer other than w that holds line l of slot s, 4 where none does.
fn first_of_line(words: &Words, w: usize, s: usize, l: usize) -> usize
    requires { (s < 16) × (l < 64) }
    ensures { result ≡ first_below 4 (holds_line (decoded words.now).writers.held w s l) }
{
    for v in 0..4 {
        if holds_line(words, w, s, l, v) {
            return v;
        }
    }
    4
}

// The lowest writer that holds a line of slot s, 4 where none does.
fn first_of_slot(words: &Words, s: usize) -> usize
    requires { s < 16 }
    ensures { result ≡ first_below 4 (holds_slot (decoded words.now).writers.held s) }
{
    for v in 0..4 {
        if state_words::held_at(words, v, s) != 0 {
            return v;
        }
    }
    4
}

// The lowest writer in the way of a write (row 14), 4 where there is none.
pub fn line_holder(words: &Words, writer: usize, page: usize, line: usize) -> usize
    ensures { result ≡ line_holder (decoded words.now) writer page line }
{
    let z = state_words::sizes_in(words);
    let s = slot_met(z, words, page);
    if s >= 16 {
        return 4;
    }
    if line > 63 {
        return 4;
    }
    first_of_line(words, writer, s, line)
}

// The lowest writer in the way of a consolidation (row 18), 4 where there is none.
pub fn page_holder(words: &Words, page: usize) -> usize
    ensures { result ≡ page_holder (decoded words.now) page }
{
    let z = state_words::sizes_in(words);
    let s = slot_met(z, words, page);
    if s >= 16 {
        return 4;
    }
    first_of_slot(words, s)
}

// The lowest writer in the way of an event (row 14), 4 where there is none. A count has one line, an event that moves credit two.
pub fn event_holder(words: &Words, kind: usize, meter: usize) -> usize
    ensures { result ≡ event_holder (decoded words.now) kind meter }
{
    let first = line_holder(words, 1, 0, meters::first_meter(kind, meter));
    let own = line_holder(words, 1, 0, meters::own_meter(kind, meter));
    first.min(own)
}

// The writer in the way of a call that a number turns back.
#[tactic(auto, unfolding(crate::specs::Met::holder_met))]
fn holder_met(
    words: &Words,
    call: usize,
    number: usize,
    writer: usize,
    page: usize,
    line: usize,
    kind: usize,
    meter: usize,
) -> usize
    ensures { result ≡ holder_met (decoded words.now) call number writer page line kind meter }
{
    match number {
        14 if call == wording::EVENT => event_holder(words, kind, meter),
        14 => line_holder(words, writer, page, line),
        18 => page_holder(words, page),
        _ => 0,
    }
}

fn where_taken(has: bool, v: usize) -> usize
    ensures { result ≡ cond has v 0 }
{
    if has { v } else { 0 }
}

// The reason of a call that a number turned back, from the state and what the call was given: a writer, a page, a line, or as an event a kind and a
// meter. What the call does not take may be anything.
pub fn reason_met(
    words: &Words,
    call: usize,
    number: usize,
    writer: usize,
    page: usize,
    line: usize,
    kind: usize,
    meter: usize,
) -> Reason
    ensures { result ≡ reason_met (decoded words.now) call number writer page line kind meter }
{
    Reason {
        call,
        number,
        writer: where_taken(wording::takes_writer(call), writer),
        page: where_taken(wording::takes_page(call), page),
        line: where_taken(wording::takes_line(call), line),
        holder: holder_met(words, call, number, writer, page, line, kind, meter),
    }
}
