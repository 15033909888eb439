// Commits on a state in words. A narrow writer's has a loop of its own: the one that finds pieces by operation takes a third more instructions.
#![tactic(auto)]

ghost use Rattle.std.specs.Prelude.{true, ◌≡◌, ◌≤◌, length, replicate, Ok};
ghost use Rattle.layout.specs.Layout.{image_length};
ghost use Rattle.state.specs.declared.Op.TheVariants.{Commit};
ghost use Rattle.operations.specs.Operations.{needs};
ghost use Rattle.validity.specs.Validity.{state_ok};
ghost use Rattle.refinement.specs.Stores.{stores_made, state_after};
ghost use Rattle.refinement.specs.Calls.{asked, commit_of};
ghost use Rattle.answers.specs.Answers.{number_of};
ghost use Rattle.op_stores.specs.Asks.{Allowed};
ghost use Rattle.op_stores.specs.Started.{Started};
ghost use Rattle.state_words.specs.Decoded.{decoded, places_of};
ghost use Rattle.call_commit.specs.Commits.{Commits};

use answers::Answer;
use layout::Sizes;
use op_stores::Until;
use rows::Refusal;
use state::{Op, Pending, Places};
use state_words::Words;

// Makes the first n stores of the commit that is pending, which has c slots.
fn store_commit(image: &mut [u8], z: Sizes, at: Places, words: &Words, w: usize, c: usize, n: usize)
    requires { Commits z at (decoded words.now) w c × (n ≤ needs (decoded words.now) (Commit w)) × (image_length z ≤ length image.old) }
    ensures { image.new ≡ stores_made (decoded words.now) n image.old }
{
    let mut i = 0;
    // A turn makes as many stores as its piece has left, so no range steps as i does.
    while i < n {
        let p = op_commit::piece::commit_piece(z, at.head, words, w, c, i);
        let m = bounded::smaller(p.count - p.from, n - i);
        op_writer::put_piece(image, words, p, m);
        i += m;
    }
}

// Makes the first n of all stores of the commit that is pending, and leaves what they leave.
fn go_on(
    image: &mut [u8],
    z: Sizes,
    at: Places,
    words: &mut Words,
    w: usize,
    c: usize,
    all: usize,
    n: usize,
)
    requires { Commits z at (decoded words.old) w c × (all ≡ needs (decoded words.old) (Commit w)) × (n ≤ all) × (image_length z ≤ length image.old) }
    ensures image { image.new ≡ stores_made (decoded words.old) n image.old }
    ensures words { decoded words.new ≡ state_after (decoded words.old) n }
{
    store_commit(image, z, at, words, w, c, n);
    if n == all {
        op_commit::complete_commit(z, words, w);
        return;
    }
    state_words::parts::put_made(words, n);
}

// A narrow writer's commit, which no row turns back.
fn commit_narrow(
    image: &mut [u8],
    z: Sizes,
    at: Places,
    words: &mut Words,
    w: usize,
    until: Until,
) -> Answer
    requires { Allowed z at (decoded words.old) (Commit w) × (image_length z ≤ length image.old) }
    ensures answer { result ≡ Ok (needs (decoded words.old) (Commit w)) }
    ensures started { Started result (decoded words.new) image.new
        (asked 0 (decoded words.old) (Commit w) (replicate 8 0)) image.old until }
{
    let c = state_held::held::held_count(z, words, w);
    let n = needs::commit_needs(c);
    if n == 0 {
        op_commit::complete_commit(z, words, w);
        return Ok(0);
    }
    let op = Op::Commit { writer: w };
    let none = [0u64; 8];
    let p = Pending {
        op,
        made: 0,
        line: none,
        second: none,
    };
    state_pending::put_pending(words, p);
    let k = op_stores::budget(until, op, 0, n);
    go_on(image, z, at, words, w, c, n, k);
    Ok(n)
}

// Commit on a state that row 8 accepts.
pub fn commit_valid(
    image: &mut [u8],
    z: Sizes,
    at: Places,
    words: &mut Words,
    writer: usize,
    until: Until,
) -> Answer
    requires { (z ≡ (decoded words.old).sizes) × (at ≡ places_of (decoded words.old)) × (state_ok (decoded words.old) ≡ true) }
    ensures started { Started result (decoded words.new) image.new
        (commit_of (decoded words.old) image.old writer) image.old until }
    ensures words { (number_of result ≡ 0 → ⊥) → words.new ≡ words.old }
{
    call_rows::commit_row(z, at, words, writer, image.len())?;
    if at.wide == writer {
        return op_stores::ask(image, z, at, words, Op::Copy, until);
    }
    commit_narrow(image, z, at, words, writer, until)
}

// Commits, and goes on with it as far as is said. The wide writer's commit is a copying. A call that is turned back changes no word.
pub fn commit(image: &mut [u8], words: &mut Words, writer: usize, until: Until) -> Answer
    ensures started { Started result (decoded words.new) image.new
        (commit_of (decoded words.old) image.old writer) image.old until }
    ensures words { (number_of result ≡ 0 → ⊥) → words.new ≡ words.old }
{
    let z = state_words::sizes_in(words);
    let at = state_words::places_in(words);
    if !state_rules::state_ok(z, at, words) {
        return Err(Refusal::BadState);
    }
    commit_valid(image, z, at, words, writer, until)
}
