ghost use Rattle.std.specs.Prelude.{◌≡◌, ℕ, ◌+◌, ◌<◌, ◌≤◌, length, OnErr};
ghost use Rattle.refusals.specs.Judged.{Judged};
ghost use Rattle.intake.specs.Faults.{TreeFault, parent_row};
ghost use Rattle.intake.specs.Taken.{Sound, Taken};

use super::bounds::lowest_offender;
use super::chain::{copy_parents, set_chains};
use amounts::Amount;
use jobs::Job;
use refusals::{MOST_AXES, MOST_JOBS, Refusal};
use trees::Parents;

/// The parents of the jobs 1 to `n`, where the records are those of a tree. The spare cell has what
/// record 0 has there, which is no job.
pub fn parents_of<K: Amount>(jobs: &[Job<K>], n: usize) -> Result<Parents, Refusal>
    ensures { Judged (TreeFault K.Amount.width K.Amount.reading jobs.now n) (λ ps. Sound K.Amount.width K.Amount.reading jobs.now n × (ps ≡ parent_row jobs.now n)) result }
{
    if n == 0 || n > MOST_JOBS || n >= jobs.len() {
        return Err(Refusal::JobCount { jobs: n });
    }
    if K::count() > MOST_AXES {
        return Err(Refusal::TooManyAxes);
    }
    if let Some(job) = lowest_offender(jobs, n) {
        return Err(Refusal::JobBound { job });
    }
    let mut row = [0u32; 4096];
    copy_parents(jobs, &mut row[..n + 1]);
    Parents::of(&row[..n + 1])
}

/// Takes the tree of the jobs 1 to `n` in: sets the chains of children in their records.
pub fn take_in<K: Amount>(jobs: &mut [Job<K>], n: usize) -> Result<(), Refusal>
    ensures told { Judged (TreeFault K.Amount.width K.Amount.reading jobs.old n) (λ _. Sound K.Amount.width K.Amount.reading jobs.old n × Taken n jobs.old jobs.new) result }
    ensures same { OnErr result (jobs.new ≡ jobs.old) }
{
    let parents = parents_of(jobs, n)?;
    set_chains(jobs, n, &parents.chains());
    Ok(())
}
