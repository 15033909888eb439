// Stores by what they are for, and rounds.
ghost use Rattle.std.specs.Prelude.{◌≡◌};
ghost use Rattle.trials.specs.Trials.{stores_for, plus, counted};

use crate::{Ask, NOTHING, Spent};

// What the n stores of a call are for.
#[tactic(auto, unfolding(crate::specs::Trials::stores_for))]
pub fn stores_for(a: Ask, n: u64) -> Spent
    ensures { result ≡ stores_for a n }
{
    match a {
        Ask::Write { .. } => Spent {
            written: n,
            ..NOTHING
        },
        Ask::Free if n >= 6 => Spent {
            journal: 5,
            copies: n - 6,
            tables: 1,
            ..NOTHING
        },
        Ask::Checkpoint => Spent {
            tables: n,
            ..NOTHING
        },
        Ask::Commit => Spent {
            journal: n,
            ..NOTHING
        },
        Ask::Begin | Ask::Free | Ask::Abort => NOTHING,
    }
}

#[tactic(auto, unfolding(crate::specs::Trials::plus))]
pub fn add(s: Spent, t: Spent) -> Spent
    ensures { result ≡ plus s t }
{
    Spent {
        written: s.written.wrapping_add(t.written),
        journal: s.journal.wrapping_add(t.journal),
        copies: s.copies.wrapping_add(t.copies),
        tables: s.tables.wrapping_add(t.tables),
    }
}

// One round more.
pub fn one_more(n: u64) -> u64
    ensures { result ≡ counted n }
{
    if n < 1000 { n + 1 } else { n }
}
