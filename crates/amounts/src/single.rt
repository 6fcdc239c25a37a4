ghost use Rattle.std.specs.Prelude.{◌≡◌, ℕ, ◌≤◌, min};
ghost use Rattle.amounts.specs.Axes.{most, single};
ghost use Rattle.std.proofs.Common.{rules};

use super::amount::{Amount, LIMIT};
use super::ranked::Ranked;

/// A kind of amount with a single axis: an amount is one number, whatever it is kept as.
pub trait Single: Copy {
    /// What the axis holds.
    ghost held: { Self → ℕ };

    fn value(&self) -> u64
        ensures { result ≡ held self.now };

    /// The amount that holds the value, which is cut to the limit.
    fn of(value: u64) -> Self
        ensures { held result ≡ min most value };

    ghost limited: { (x : Self) → held x ≤ most };
}

impl<S: Single> Amount for S {
    ghost width = { 1 };

    ghost reading = { λ x. single (S.Single.held x) };

    ghost wide = { Prim.search rules };

    ghost bounded = { Prim.search rules };

    ghost nothing = { Prim.search rules };

    ghost beyond = { Prim.search rules };

    fn count() -> u32 {
        1
    }

    fn axis(&self, k: u32) -> Option<u64> {
        if k == 1 { Some(self.value()) } else { None }
    }

    fn with_axis(&self, k: u32, value: u64) -> Option<S> {
        if k == 1 && value <= LIMIT {
            Some(S::of(value))
        } else {
            None
        }
    }

    fn zero() -> S {
        S::of(0)
    }

    fn fits(&self, other: &S) -> bool {
        self.value() <= other.value()
    }

    fn sum(&self, other: &S) -> Option<S> {
        let total = self.value() + other.value();
        if total <= LIMIT {
            Some(S::of(total))
        } else {
            None
        }
    }

    fn difference(&self, other: &S) -> Option<S> {
        let (whole, part) = (self.value(), other.value());
        if part <= whole {
            Some(S::of(whole - part))
        } else {
            None
        }
    }

    fn lesser(&self, other: &S) -> S {
        S::of(self.value().min(other.value()))
    }

    fn greater(&self, other: &S) -> S {
        S::of(self.value().max(other.value()))
    }
}

impl<S: Single> Ranked for S {
    ghost alone = { Prim.search rules };

    fn smaller(&self, other: &S) -> bool {
        self.value() < other.value()
    }
}
