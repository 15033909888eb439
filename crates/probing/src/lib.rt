// A line of probe (PROBE.md) performed: its letter chooses what it does.
#![tactic(auto)]

mod calls;

ghost use Rattle.std.specs.Prelude.{◌≡◌, take, drop, ◌++◌};
ghost use Rattle.state_words.specs.Decoded.{decoded};
ghost use Rattle.workbench.specs.Turns.{turn_at};
ghost use Rattle.probing.specs.Calls.{call_turn, call_bytes};
ghost use Rattle.probing.specs.Lines.{numbers_said, hash_said, turn_of, buffer_after, table_after, lent_after};

use moduli_calls::loading;
use state_words::Words;
use text::Line;
use workbench::moduli::Moduli;
use workbench::{Said, numbers};

// G: the state's numbers are printed.
fn show_numbers(line: Line) -> Option<Said>
    ensures { result ≡ numbers_said line }
{
    numbers::<0>(line)?;
    Some(Said::Numbers)
}

// H: the hash of the whole buffer.
fn show_hash(buffer: &[u8], line: Line) -> Option<Said>
    ensures { result ≡ hash_said buffer.now line }
{
    numbers::<0>(line)?;
    Some(Said::Hash(hashing::hash(buffer)))
}

// A call on the bytes lent; never are more lent than there are.
fn call_lent(
    buffer: &mut [u8],
    words: &mut Words,
    table: Moduli,
    lent: usize,
    line: Line,
) -> Option<Said>
    ensures turn { turn_at result words.new
        ≡ call_turn (decoded words.old) (take lent buffer.old) table line }
    ensures bytes { buffer.new
        ≡ call_bytes (decoded words.old) (take lent buffer.old) line ++ drop lent buffer.old }
{
    if lent < buffer.len() {
        return calls::call(&mut buffer[..lent], words, table, line);
    }
    calls::call(buffer, words, table, line)
}

// What a line does to the state, the buffer and the moduli, and what it prints.
pub fn turn(
    buffer: &mut [u8],
    words: &mut Words,
    table: &mut Moduli,
    lent: usize,
    line: Line,
) -> Option<Said>
    ensures turn { turn_at result words.new ≡ turn_of (decoded words.old) lent buffer.old table.old line }
    ensures bytes { buffer.new ≡ buffer_after (decoded words.old) lent buffer.old line }
    ensures table { table.new ≡ table_after (decoded words.old) lent buffer.old table.old line }
{
    match line.letter {
        b'L' => buffer_edits::lend(buffer.len(), line),
        b'Y' => buffer_edits::set_byte(buffer, line),
        b'U' => buffer_edits::set_word(buffer, line),
        b'T' => state_edits::set_number(words, line),
        b'O' => pending_edits::set_pending(words, line),
        b'Q' => pending_edits::set_line_byte(words, line),
        b'm' => moduli_edits::set_modulus(table, line),
        b'k' => moduli_edits::set_count(table, line),
        b'l' => loading::load(buffer, words, table, lent, line),
        b'G' => show_numbers(line),
        b'H' => show_hash(buffer, line),
        _ => call_lent(buffer, words, *table, lent, line),
    }
}

// What the calls of later lines are lent.
pub fn lent_after(lent: usize, size: usize, line: Line) -> usize
    ensures { result ≡ lent_after lent size line }
{
    if line.letter == b'L' {
        return buffer_edits::lent_by(lent, size, line);
    }
    lent
}
