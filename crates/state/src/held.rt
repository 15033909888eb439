// A truth value as a number.
ghost use Rattle.std.specs.Prelude.{◌≡◌};
ghost use Rattle.bounded.specs.Below.{one};

// 1 where a test holds.
#[tactic(auto, unfolding(bounded::specs::Below::one))]
pub fn one_if(b: bool) -> usize
    ensures { result ≡ one b }
{
    usize::from(b)
}
