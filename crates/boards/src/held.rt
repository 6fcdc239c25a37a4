//! What a start and a report make of what is held, and of a job's record.
ghost use Rattle.std.specs.Prelude.{◌≡◌, ℕ, ◌-◌, ◌<◌, ◌≤◌, length, MatchResult};
ghost use Rattle.refusals.specs.declared.Refusal.TheVariants.{BenchUnknown};
ghost use Rattle.trees.specs.Sums.{In};
ghost use Rattle.rules.specs.Records.{restated};
ghost use Rattle.boards.specs.Held.{With, Without};

use amounts::Amount;
use jobs::{Job, State};
use refusals::{MOST_JOBS, Refusal};
use rules::{BENCHES, freed};

/// The place of a bench in the table, where it is one of the board's.
pub(crate) fn place_of(bench: usize, benches: usize) -> Result<usize, Refusal>
    ensures { MatchResult result (λ p. (p ≡ bench - 1) × In benches bench × (bench ≤ 64)) (λ e. (e ≡ BenchUnknown) × (In benches bench → bench ≤ 64 → ⊥)) }
{
    if bench == 0 || bench > benches || bench > BENCHES {
        Err(Refusal::BenchUnknown)
    } else {
        Ok(bench - 1)
    }
}

/// What is held once the job runs; none where the job does not wait.
pub(crate) fn held_with<K: Amount>(held: &K, jobs: &[Job<K>], job: usize) -> Option<K>
    ensures { With K.Amount.width K.Amount.reading jobs.now job held.now result }
{
    if job == 0 || job > MOST_JOBS {
        return None;
    }
    let record = jobs.get(job)?;
    let State::Waiting = record.state else {
        return None;
    };
    held.sum(&record.work)?.sum(&record.output)
}

/// What is held once the job is done; none where the job does not run on the bench.
pub(crate) fn held_without<K: Amount>(
    held: &K,
    jobs: &[Job<K>],
    job: usize,
    bench: usize,
) -> Option<K>
    ensures { Without K.Amount.width K.Amount.reading jobs.now job held.now bench result }
{
    let record = jobs.get(job)?;
    let State::Running(at) = record.state else {
        return None;
    };
    if at as usize != bench {
        return None;
    }
    let back = freed(jobs, job)?;
    held.difference(&back)
}

/// Changes the state in the record of a job.
pub(crate) fn restate<K: Amount>(jobs: &mut [Job<K>], job: usize, state: State)
    requires { job < length jobs.old }
    ensures { jobs.new ≡ restated jobs.old job state }
{
    let record = jobs[job];
    jobs[job] = Job { state, ..record };
}
