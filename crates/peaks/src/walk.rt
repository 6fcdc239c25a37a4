ghost use Rattle.std.specs.Prelude.{◌≡◌, ℕ, ◌+◌, ◌-◌, ◌<◌, ◌≤◌};
ghost use Rattle.std.specs.Iterator.{at_most};
ghost use Rattle.refusals.specs.Judged.{Judged};
ghost use Rattle.peaks.specs.Faults.{RunFault};
ghost use Rattle.peaks.specs.Stood.{Passable};
ghost use Rattle.peaks.specs.Walk.{Walking, On, Passes};

use super::add::{minus, plus};
use super::inputs::inputs_of;
use super::survey::{Survey, survey_of};
use amounts::Amount;
use jobs::Job;
use refusals::Refusal;
use trees::Chains;

/// A line as it is run from its first position on: each position in turn, with what stands there.
#[derive(Drop)]
pub(crate) struct Walk<'a, K> {
    jobs: &'a [Job<K>],
    n: usize,
    line: &'a [u32],
    chains: Chains,
    /// The next position.
    position: usize,
    /// What the jobs before it left standing.
    before: K,
}

impl<'a, K: Amount> Walk<'a, K> {
    /// At the first position of the line of the jobs 1 to `n`.
    pub(crate) fn of(jobs: &'a [Job<K>], n: usize, line: &'a [u32]) -> Result<Walk<'a, K>, Refusal>
        ensures { Judged (RunFault K.Amount.width K.Amount.reading jobs.now n line.now) (λ s. Walking K.Amount.width K.Amount.reading s × On jobs.now n line.now s × (s.position ≡ 1)) result }
    {
        let Survey { chains, .. } = survey_of(jobs, n, line)?;
        Ok(Walk {
            jobs,
            n,
            line,
            chains,
            position: 1,
            before: K::zero(),
        })
    }
}

/// What stands while a job runs on top of what was left before, and what is left once it is done
/// and has taken what was given to it.
fn pass<K: Amount>(job: &Job<K>, before: &K, given: &K) -> (K, K)
    requires { Passable K.Amount.reading job.now before.now given.now }
    ensures stands { (k : ℕ) → K.Amount.reading result.0 k ≡ K.Amount.reading before.now k + K.Amount.reading job.now.work k + K.Amount.reading job.now.output k }
    ensures leaves { (k : ℕ) → K.Amount.reading result.1 k + K.Amount.reading given.now k ≡ K.Amount.reading before.now k + K.Amount.reading job.now.output k }
{
    let stands = plus(&plus(before, &job.work), &job.output);
    let leaves = minus(&plus(before, &job.output), given);
    (stands, leaves)
}

impl<K: Amount> Iterator for Walk<'_, K> {
    type Item = (usize, K);

    ghost can_next = { Walking K.Amount.width K.Amount.reading };

    ghost next_gives = { Passes K.Amount.reading };

    ghost remaining = { λ s. at_most (s.n + 1 - s.position) };

    fn next(&mut self) -> Option<(usize, K)> {
        let position = self.position;
        if position > self.n {
            return None;
        }
        let i = self.line[position - 1] as usize;
        let given = inputs_of(self.jobs, self.n, &self.chains, i);
        // by a name of its own: what a slice's type says is known of a variable, not of a field
        let jobs = self.jobs;
        let (stands, leaves) = pass(&jobs[i], &self.before, &given);
        self.position = position + 1;
        self.before = leaves;
        Some((position, stands))
    }
}
