ghost use Rattle.std.specs.Prelude.{ℕ, AllPairs, Contains, ◌↔◌};
ghost use Rattle.touch_sweep.specs.Touching.{ComesBefore};

/// The pairs in rising order, each once.
pub fn in_order(mut pairs: Vec<(usize, usize)>) -> Vec<(usize, usize)>
    ensures same { (a b : ℕ) → Contains result.items (a, b) ↔ Contains pairs.items (a, b) }
    ensures rising { AllPairs ComesBefore result.items }
{
    pairs.sort_unstable();
    pairs.dedup();
    pairs
}
