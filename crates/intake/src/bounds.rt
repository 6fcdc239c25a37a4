ghost use Rattle.std.specs.Prelude.{◌≡◌, ℕ, ◌<◌, ◌≤◌, Bool, true, length, MatchBool};
ghost use Rattle.trees.specs.Found.{Lowest};
ghost use Rattle.intake.specs.Faults.{Offends, Above};

use amounts::{Amount, exceeds};
use jobs::Job;
use refusals::{AXIS_BOUND, MINUTES_BOUND};

/// Whether a job's work, output or minutes are above their bound.
fn offends<K: Amount>(job: &Job<K>) -> bool
    ensures { MatchBool result (Offends K.Amount.width K.Amount.reading job.now) (Offends K.Amount.width K.Amount.reading job.now → ⊥) }
{
    exceeds(&job.work, AXIS_BOUND)
        || exceeds(&job.output, AXIS_BOUND)
        || job.minutes > MINUTES_BOUND
}

/// The lowest of the jobs 1 to `n` that is above a bound.
pub(crate) fn lowest_offender<K: Amount>(jobs: &[Job<K>], n: usize) -> Option<usize>
    requires { n < length jobs.now }
    ensures { Lowest n (Above K.Amount.width K.Amount.reading jobs.now) result }
{
    for (i, job) in jobs.iter().enumerate() {
        if 1 <= i && i <= n && offends(job) {
            return Some(i);
        }
    }
    None
}
