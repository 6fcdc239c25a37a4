ghost use Rattle.std.specs.Prelude.{◌≡◌};
ghost use Rattle.amounts.specs.Axes.{Same};
ghost use Rattle.rules.specs.Records.{unused};

use amounts::Amount;
use refusals::MOST_BENCHES;

/// The places of the bench table.
pub const BENCHES: usize = MOST_BENCHES as usize;

/// What a board knows beside the job records.
#[derive(Clone, Copy)]
pub struct Hall<K> {
    /// How many jobs the opened tree has; 0 before an opening.
    pub jobs: usize,
    /// How many benches there are; 0 before an opening.
    pub benches: usize,
    pub floor: K,
    /// What the jobs hold of the floor.
    pub held: K,
    /// The job on each bench, if it has one. Bench 1 comes first.
    pub table: [Option<u32>; BENCHES],
    /// The starts granted since the opening.
    pub starts: usize,
    /// The reports granted since the opening.
    pub reports: usize,
}

impl<K: Amount> Hall<K> {
    /// A hall where nothing has been granted yet: all benches are idle and nothing is held.
    pub fn new(jobs: usize, benches: usize, floor: K) -> Hall<K>
        ensures unused { result ≡ unused jobs benches floor result.held }
        ensures nothing { Same K.Amount.reading result.held (λ _. 0) }
    {
        Hall {
            jobs,
            benches,
            floor,
            held: K::zero(),
            table: [None; BENCHES],
            starts: 0,
            reports: 0,
        }
    }
}
