ghost use Rattle.std.specs.Prelude.{ℕ, take};
ghost use Rattle.refusals.specs.Judged.{Judged};
ghost use Rattle.trees.specs.Lines.{Plain};
ghost use Rattle.intake.specs.Faults.{TreeFault, par_of};
ghost use Rattle.intake.specs.Taken.{Sound};
ghost use Rattle.checks.specs.Carried.{Carried as CarriedBy};

use amounts::Amount;
use intake::parents_of;
use jobs::Job;
use lines::plain_in;
use peaks::{check_hall, first_over, peak};
use refusals::Refusal;

/// The plain line of the jobs 1 to `n`, in the first `n` cells.
pub fn plain_of<K: Amount>(jobs: &[Job<K>], n: usize) -> Result<[u32; 4096], Refusal>
    ensures { Judged (TreeFault K.Amount.width K.Amount.reading jobs.now n) (λ cells. Sound K.Amount.width K.Amount.reading jobs.now n × Plain n (par_of jobs.now n) (take n cells)) result }
{
    let parents = parents_of(jobs, n)?;
    let mut line = [0u32; 4096];
    plain_in(&parents, &mut line)?;
    Ok(line)
}

/// The peak of the plain line of the jobs 1 to `n`, where the records are those of a tree, the hall
/// has benches and a floor as they may be, and what stands fits the floor at every position.
pub fn carried<K: Amount>(jobs: &[Job<K>], n: usize, benches: u32, floor: &K) -> Result<K, Refusal>
    ensures { CarriedBy K.Amount.width K.Amount.reading jobs.now n benches floor.now result }
{
    let line = plain_of(jobs, n)?;
    check_hall(benches as usize, floor)?;
    if let Some(position) = first_over(jobs, n, &line[0..n], floor)? {
        return Err(Refusal::FloorExceeded { position });
    }
    peak(jobs, n, &line[0..n])
}
