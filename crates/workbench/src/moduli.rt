// The moduli that events are lent.
ghost use Rattle.std.specs.Prelude.{◌≡◌};
ghost use Rattle.workbench.specs.Moduli.{all_lent, first_moduli, lent_moduli};

// A table of moduli, and how many of its first ones an event is lent.
#[derive(Clone, Copy, Debug, PartialEq, Eq)]
pub struct Moduli {
    pub all: [u64; 24],
    pub lent: usize,
}

impl Moduli {
    // These moduli, all of them lent.
    pub fn all_lent(moduli: [u64; 24]) -> Moduli
        ensures { result ≡ all_lent moduli }
    {
        Moduli {
            all: moduli,
            lent: 24,
        }
    }

    // The table at first.
    pub fn first() -> Moduli
        ensures { result ≡ first_moduli }
    {
        Moduli::all_lent(meters::fixed_moduli())
    }

    // Those that an event is lent.
    pub fn lent(&self) -> &[u64]
        ensures { result.now ≡ lent_moduli self.now }
    {
        &self.all[..self.lent.min(24)]
    }
}
