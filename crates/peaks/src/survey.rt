ghost use Rattle.std.specs.Prelude.{ℕ};
ghost use Rattle.refusals.specs.Judged.{Judged};
ghost use Rattle.peaks.specs.Faults.{RunFault};
ghost use Rattle.peaks.specs.Surveyed.{Surveyed};

use amounts::Amount;
use intake::parents_of;
use jobs::Job;
use lines::places_in;
use refusals::Refusal;
use trees::Chains;

/// What the checks of a tree and its line find out on their way.
#[derive(Drop)]
pub struct Survey {
    pub chains: Chains,
    /// The position of each job in the line.
    pub places: [u32; 4096],
}

/// The chains and the positions of the jobs 1 to `n`, where the records are those of a tree and the
/// row is a line of it.
pub fn survey_of<K: Amount>(jobs: &[Job<K>], n: usize, line: &[u32]) -> Result<Survey, Refusal>
    ensures { Judged (RunFault K.Amount.width K.Amount.reading jobs.now n line.now) (Surveyed K.Amount.width K.Amount.reading jobs.now n line.now) result }
{
    let parents = parents_of(jobs, n)?;
    let places = places_in(&parents, line)?;
    Ok(Survey {
        chains: parents.chains(),
        places,
    })
}
