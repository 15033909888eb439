// The lines that make a call, on the bytes lent.
ghost use Rattle.std.specs.Prelude.{◌≡◌};
ghost use Rattle.state_words.specs.Decoded.{decoded};
ghost use Rattle.workbench.specs.Turns.{turn_at};
ghost use Rattle.probing.specs.Calls.{place_turn, place_bytes, ask_turn, call_turn, call_bytes};

use state_words::Words;
use text::Line;
use transaction_calls::prepared;
use workbench::Said;
use workbench::moduli::Moduli;

// In place.
fn perform(image: &mut [u8], words: &mut Words, line: Line) -> Option<Said>
    ensures turn { turn_at result words.new ≡ place_turn (decoded words.old) image.old line }
    ensures bytes { image.new ≡ place_bytes (decoded words.old) image.old line }
{
    match line.letter {
        b'b' => transaction_calls::begin(words, line),
        b'a' => transaction_calls::abort(words, line),
        b'v' => transaction_calls::begin_wide(words, line),
        b'w' => transaction_calls::write(image, words, line, true),
        b'c' => transaction_calls::commit(image, words, line, true),
        b'd' => transaction_calls::consolidate(image, words, line, true),
        b'p' => transaction_calls::checkpoint(image, words, line, true),
        _ => None,
    }
}

// Of a transaction, or an operation that is asked for; else in place.
fn ask(image: &mut [u8], words: &mut Words, table: Moduli, line: Line) -> Option<Said>
    ensures turn { turn_at result words.new ≡ ask_turn (decoded words.old) image.old table line }
    ensures bytes { image.new ≡ place_bytes (decoded words.old) image.old line }
{
    match line.letter {
        b'B' => transaction_calls::begin(words, line),
        b'A' => transaction_calls::abort(words, line),
        b'V' => transaction_calls::begin_wide(words, line),
        b'W' => transaction_calls::write(image, words, line, false),
        b'C' => transaction_calls::commit(image, words, line, false),
        b'D' => transaction_calls::consolidate(image, words, line, false),
        b'X' => prepared::free_slot(image, words, line),
        b'P' => transaction_calls::checkpoint(image, words, line, false),
        b'I' => prepared::prepare(image, words, line),
        b'J' => prepared::confirm(image, words, line),
        b'Z' => prepared::withdraw(image, words, line),
        b'K' => moduli_calls::event(image, words, table, line),
        _ => perform(image, words, line),
    }
}

pub fn call(image: &mut [u8], words: &mut Words, table: Moduli, line: Line) -> Option<Said>
    ensures turn { turn_at result words.new ≡ call_turn (decoded words.old) image.old table line }
    ensures bytes { image.new ≡ call_bytes (decoded words.old) image.old line }
{
    match line.letter {
        b'F' => image_calls::format(image, words, line),
        b'M' => image_calls::mount(image, words, line),
        b'S' => image_calls::step(image, words, line),
        b'N' => image_calls::run(image, words, line),
        b'n' => image_calls::next_store(image, words, line),
        b'R' => line_calls::read(image, words, line),
        b'E' => line_calls::recall(image, line),
        _ => ask(image, words, table, line),
    }
}
