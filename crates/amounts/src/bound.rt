ghost use Rattle.std.specs.Prelude.{ℕ, ◌<◌, MatchBool};
ghost use Rattle.amounts.specs.Axes.{Exceeds as Above};

use super::amount::Amount;

/// Whether one of the first 64 axes is above the bound.
pub fn exceeds<K: Amount>(amount: &K, bound: u64) -> bool
    ensures { MatchBool result (Above K.Amount.width (K.Amount.reading amount.now) bound) (Above K.Amount.width (K.Amount.reading amount.now) bound → ⊥) }
{
    (1..K::count() + 1).any(|k| amount.axis(k).is_some_and(|value| value > bound))
}
