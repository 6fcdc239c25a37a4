ghost use Rattle.std.specs.Prelude.{◌≡◌, ℕ, ◌+◌, ◌≤◌};
ghost use Rattle.amounts.specs.Axes.{most, Same};

use amounts::Amount;

/// The sum of two amounts, where no axis of it is above the limit.
pub(crate) fn plus<K: Amount>(a: &K, b: &K) -> K
    requires { (k : ℕ) → K.Amount.reading a.now k + K.Amount.reading b.now k ≤ most }
    ensures { Same K.Amount.reading result (λ k. K.Amount.reading a.now k + K.Amount.reading b.now k) }
{
    a.sum(b).unwrap()
}

/// What is left of `a` without `b`, where no axis of `b` is above that of `a`.
pub(crate) fn minus<K: Amount>(a: &K, b: &K) -> K
    requires { (k : ℕ) → K.Amount.reading b.now k ≤ K.Amount.reading a.now k }
    ensures { (k : ℕ) → K.Amount.reading result k + K.Amount.reading b.now k ≡ K.Amount.reading a.now k }
{
    a.difference(b).unwrap()
}
