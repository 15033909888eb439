// A round: its pages are written, and then it is committed, or abandoned by abort.
ghost use Rattle.std.specs.Prelude.{◌≡◌};
ghost use Rattle.trials.specs.Trials.{trial_of, made, with_room, put, put_all, committed, played};

use crate::{Ask, Trial, calls, counts};
use state_words::Words;

// One call, and all the stores that it needs.
fn make(t: Trial, image: &mut [u8], words: &mut Words, a: Ask) -> Trial
    ensures { trial_of result words.new image.new ≡ made a (trial_of t words.old image.old) }
{
    let answer = calls::call(image, words, a);
    let number = answers::number_of(answer);
    let stores = calling::stores_of(answer);
    let spent = counts::add(t.spent, counts::stores_for(a, stores as u64));
    Trial {
        number,
        spent,
        done: t.done,
        abandoned: t.abandoned,
    }
}

// A call; where the journal is full, a checkpoint and the call again.
fn make_with_room(t: Trial, image: &mut [u8], words: &mut Words, a: Ask) -> Trial
    ensures { trial_of result words.new image.new ≡ with_room a (trial_of t words.old image.old) }
{
    let first = make(t, image, words, a);
    if first.number != 19 {
        return first;
    }
    let emptied = make(first, image, words, Ask::Checkpoint);
    make(emptied, image, words, a)
}

// A page is written; where no slot is free, one is made free and the page written again.
fn put_page(t: Trial, image: &mut [u8], words: &mut Words, page: usize, byte: u8) -> Trial
    ensures { trial_of result words.new image.new ≡ put byte page (trial_of t words.old image.old) }
{
    let first = make(t, image, words, Ask::Write { page, byte });
    if first.number != 15 {
        return first;
    }
    let freed = make_with_room(first, image, words, Ask::Free);
    if freed.number != 0 {
        return freed;
    }
    make(freed, image, words, Ask::Write { page, byte })
}

// The pages, as long as each is written.
fn put_pages(t: Trial, image: &mut [u8], words: &mut Words, pages: &[u64], byte: u8) -> Trial
    ensures { trial_of result words.new image.new
        ≡ put_all byte pages.now (trial_of t words.old image.old) }
{
    let mut t = t;
    for &page in pages {
        t = put_page(t, image, words, page as usize, byte);
        if t.number != 0 {
            return t;
        }
    }
    t
}

// A commit, where all pages are written.
fn commit_written(t: Trial, image: &mut [u8], words: &mut Words) -> Trial
    ensures { trial_of result words.new image.new ≡ committed (trial_of t words.old image.old) }
{
    if t.number != 0 {
        return t;
    }
    make_with_room(t, image, words, Ask::Commit)
}

// A round that writes this byte to these pages.
pub fn play(t: Trial, image: &mut [u8], words: &mut Words, pages: &[u64], byte: u8) -> Trial
    ensures { trial_of result words.new image.new
        ≡ played pages.now byte (trial_of t words.old image.old) }
{
    let begun = make(t, image, words, Ask::Begin);
    let written = put_pages(begun, image, words, pages, byte);
    let mut last = commit_written(written, image, words);
    if last.number == 0 {
        last.done = counts::one_more(last.done);
        return last;
    }
    let mut closed = make(last, image, words, Ask::Abort);
    closed.abandoned = counts::one_more(closed.abandoned);
    closed
}
