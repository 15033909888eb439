// Where a line of a state in words lies: the frame of the copy that is committed or that a writer sees, and its entry. No word of the image tells it.
#![tactic(auto)]

ghost use Rattle.std.specs.Prelude.{◌≡◌, ◌<◌, ◌≤◌};
ghost use Rattle.layout.specs.Layout.{Legal};
ghost use Rattle.replay.specs.Table.{slot_in};
ghost use Rattle.state.specs.State.{own_frame};
ghost use Rattle.state.specs.Held.{held_at};
ghost use Rattle.state.specs.Wide.{wide_of};
ghost use Rattle.refinement.specs.Frames.{seen_at};
ghost use Rattle.entry_lines.specs.Own.{own_entry};
ghost use Rattle.state_words.specs.Decoded.{decoded};
ghost use Rattle.state_lines.specs.Committed.{committed_at};

use layout::Sizes;
use state::Places;
use state_words::Words;

// The frame with the committed copy of line l of page p, s being its slot, S where it has none.
pub fn committed_at(z: Sizes, words: &Words, p: usize, s: usize, l: usize) -> usize
    requires { Legal z × (p < 1024) × (l < 64) }
    ensures { result ≡ committed_at z (slot_in (decoded words.now).table s) s (own_frame (decoded words.now) p) l }
{
    if z.slots <= s {
        return state_words::entry_at(words, p);
    }
    let t = state_words::slot_at(words, s);
    frames::committed_frame(t, l)
}

// The frame that a writer reads line l of page p from, s being its slot, S where it has none.
pub fn seen_frame(z: Sizes, words: &Words, writer: usize, p: usize, s: usize, l: usize) -> usize
    requires { Legal z × (writer < 4) × (p < 1024) × (l < 64) }
    ensures { result ≡ seen_at z (slot_in (decoded words.now).table s) (held_at (decoded words.now).writers.held writer s) s l
        (own_frame (decoded words.now) p) }
{
    if z.slots <= s {
        return state_words::entry_at(words, p);
    }
    let t = state_words::slot_at(words, s);
    let m = state_words::held_at(words, writer, s);
    if masks::has(m, l) {
        return frames::other_frame(t, l);
    }
    frames::committed_frame(t, l)
}

// The entry of a writer's line, which a wide writer alone has; the count of entries where it has none.
pub fn own_entry(at: Places, words: &Words, writer: usize, page: usize, line: usize) -> usize
    requires { (at.count ≤ 64) × (page < 1024) × (line < 64) }
    ensures { result ≡ own_entry (wide_of at.wide at.count (decoded words.now).wide.keys) writer page line }
{
    if at.wide != writer {
        return at.count;
    }
    state_held::held::find_entry(words, at.count, (64 * page + line) as u64)
}
