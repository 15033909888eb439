// Begin, begin wide and abort on the host's own state record: by value, and changed directly.
#![tactic(auto)]

mod record;

ghost use Rattle.refinement.specs.Calls.{begin_of, begin_wide_of, abort_of};
ghost use Rattle.state_words.specs.Decoded.{decoded};
ghost use Rattle.host.specs.Lent.{CameTo};

use answers::Answer;
pub use record::{Done, State};

// Opens a writer.
pub fn begin_in(st: &mut State, writer: usize) -> Answer
    ensures { CameTo (begin_of (decoded st.old.words) writer) st.old result st.new }
{
    call_begin::begin(&mut st.words, writer)
}

// Opens a writer for a wide transaction.
pub fn begin_wide_in(st: &mut State, writer: usize) -> Answer
    ensures { CameTo (begin_wide_of (decoded st.old.words) writer) st.old result st.new }
{
    call_begin::begin_wide(&mut st.words, writer)
}

// Closes a writer and empties its held lines.
pub fn abort_in(st: &mut State, writer: usize) -> Answer
    ensures { CameTo (abort_of (decoded st.old.words) writer) st.old result st.new }
{
    call_begin::abort(&mut st.words, writer)
}

// The same three on a record by value; the calls differ, and so does the contract of each, so a function over the call would be no plainer.
pub fn begin(st: State, writer: usize) -> Done
    ensures { CameTo (begin_of (decoded st.words) writer) st result.answer result.state }
{
    let mut state = st;
    let answer = begin_in(&mut state, writer);
    Done { answer, state }
}

pub fn begin_wide(st: State, writer: usize) -> Done
    ensures { CameTo (begin_wide_of (decoded st.words) writer) st result.answer result.state }
{
    let mut state = st;
    let answer = begin_wide_in(&mut state, writer);
    Done { answer, state }
}

pub fn abort(st: State, writer: usize) -> Done
    ensures { CameTo (abort_of (decoded st.words) writer) st result.answer result.state }
{
    let mut state = st;
    let answer = abort_in(&mut state, writer);
    Done { answer, state }
}
