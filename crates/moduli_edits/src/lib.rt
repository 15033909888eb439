// m and k: a modulus of the table, and how many of its first ones events are lent.
#![tactic(auto)]

ghost use Rattle.std.specs.Prelude.{◌≡◌};
ghost use Rattle.moduli_edits.specs.Edits.{modulus_said, modulus_set, count_said, count_set};

use text::Line;
use workbench::moduli::Moduli;
use workbench::{Said, edited, numbers};

// A modulus becomes v.
pub fn set_modulus(table: &mut Moduli, line: Line) -> Option<Said>
    ensures said { result ≡ modulus_said line }
    ensures table { table.new ≡ modulus_set table.old line }
{
    let [i, v] = numbers::<2>(line)?;
    if i > 23 {
        return None;
    }
    table.all[i as usize] = v;
    Some(edited())
}

// Events are lent the first n.
pub fn set_count(table: &mut Moduli, line: Line) -> Option<Said>
    ensures said { result ≡ count_said line }
    ensures table { table.new ≡ count_set table.old line }
{
    let [n] = numbers::<1>(line)?;
    if n > 24 {
        return None;
    }
    table.lent = n as usize;
    Some(edited())
}
