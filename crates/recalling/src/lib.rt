// Recall, for a host screen written in C: it mounts, copies one committed line, which is that of its entry where there is one, and forgets.
#![tactic(auto)]

ghost use Rattle.std.specs.Prelude.{◌≡◌, ◌==◌, ◌<◌, ◌≤◌, length, position, take};
ghost use Rattle.layout.specs.Layout.{Legal, image_length};
ghost use Rattle.words.specs.Words.{word};
ghost use Rattle.replay.specs.Map.{page_frames};
ghost use Rattle.rows.specs.Numbers.{row_of};
ghost use Rattle.refinement.specs.Recall.{frame_of, recall_row, recall_bytes};

use layout::Sizes;
use replay::Table;
use rows::Refusal;

// The slot of page p.
fn slot_of(z: Sizes, page: &[usize; 16], p: usize) -> Option<usize>
    requires { Legal z }
    ensures { result ≡ position (λ q. q == p) (take z.slots page.now) }
{
    page[..z.slots].iter().position(|q| *q == p)
}

// The frame with the committed copy of a page's line.
fn recall_frame(image: &[u8], z: Sizes, t: &Table, page: usize, line: usize) -> usize
    requires { Legal z × (page < z.pages) × (line < 64) × (image_length z ≤ length image.now) }
    ensures { result ≡ frame_of (page_frames (word image.now)) z t.now page line }
{
    match slot_of(z, &t.page, page) {
        Some(s) => frames::committed_frame(replay::slot_at(t, s), line),
        None => image_words::read_word(image, layout::page_word(page)) as usize,
    }
}

// Copies the committed line of a page to the target's start, which a refusal leaves as it is.
fn copy_line(page: usize, line: usize, image: &[u8], target: &mut [u8]) -> Result<(), Refusal>
    ensures number { row_of result ≡ recall_row image.now page line target.old }
    ensures bytes { target.new ≡ recall_bytes image.now page line target.old }
{
    let m = mount::judge(image)?;
    if (page >= m.sizes.pages) | (line > 63) | (target.len() < 64) {
        return Err(Refusal::BadArgument);
    }
    let e = entries::find_entry(&m.keys, m.count, (64 * page + line) as u64);
    if e < m.count {
        entry_lines::read_entry(image, m.sizes, e, target);
        return Ok(());
    }
    let f = recall_frame(image, m.sizes, &m.table, page, line);
    lines::read_line(image, m.sizes, f, line, target);
    Ok(())
}

// The committed line of a page into the target's start, or the number of the first row that turns it back.
#[unsafe(no_mangle)]
pub extern "C" fn recall(page: usize, line: usize, image: &[u8], target: &mut [u8]) -> usize
    ensures number { result ≡ recall_row image.now page line target.old }
    ensures bytes { target.new ≡ recall_bytes image.now page line target.old }
{
    match copy_line(page, line, image, target) {
        Ok(()) => 0,
        Err(row) => usize::from(row),
    }
}
