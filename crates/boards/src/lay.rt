ghost use Rattle.std.specs.Prelude.{ℕ, ◌<◌, ◌≤◌, List, length};
ghost use Rattle.peaks.specs.Surveyed.{Surveyed};
ghost use Rattle.rules.specs.Records.{Laid};

use amounts::Amount;
use jobs::{Job, State};
use peaks::Survey;

/// Makes the records of the jobs 1 to `n` ready: their chains, their positions in the line, and
/// that they wait.
pub(crate) fn lay<K: Amount>(jobs: &mut [Job<K>], n: usize, survey: &Survey)
    requires room { (n < length jobs.old) × (n ≤ 4095) }
    ensures { (row : List ℕ) → Surveyed K.Amount.width K.Amount.reading jobs.old n row survey.now → Laid n row jobs.old jobs.new }
{
    for i in 1..n + 1 {
        let job = jobs[i];
        jobs[i] = Job {
            first_child: survey.chains.first[i],
            next_sibling: survey.chains.next[i],
            position: survey.places[i],
            state: State::Waiting,
            ..job
        };
    }
}
