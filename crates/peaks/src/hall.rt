ghost use Rattle.std.specs.Prelude.{⊤};
ghost use Rattle.refusals.specs.Judged.{Judged};
ghost use Rattle.peaks.specs.Halls.{BoundFault};

use amounts::{Amount, exceeds};
use refusals::{FLOOR_BOUND, MOST_BENCHES, Refusal};

/// Whether there are 1 to 64 benches, and no axis of the floor is above its bound.
pub fn check_hall<K: Amount>(benches: usize, floor: &K) -> Result<(), Refusal>
    ensures { Judged (BoundFault K.Amount.width benches (K.Amount.reading floor.now)) (λ _. ⊤) result }
{
    if benches == 0 || benches > MOST_BENCHES as usize {
        return Err(Refusal::Benches);
    }
    if exceeds(floor, FLOOR_BOUND) {
        return Err(Refusal::Floor);
    }
    Ok(())
}
