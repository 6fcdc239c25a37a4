ghost use Rattle.std.specs.Prelude.{◌≡◌, ℕ, ◌<◌, ◌≤◌};
ghost use Rattle.trees.specs.Sums.{In};
ghost use Rattle.trees.specs.Chains.{ChainedBy};
ghost use Rattle.trees.specs.Trees.{kids};
ghost use Rattle.jobs.specs.Fields.{output_of};
ghost use Rattle.intake.specs.Faults.{par_of};
ghost use Rattle.intake.specs.Taken.{Sound};

use super::add::plus;
use amounts::Amount;
use jobs::Job;
use trees::Chains;

/// The inputs of job `i`: the sum of the outputs of its children, along their chain.
pub(crate) fn inputs_of<K: Amount>(jobs: &[Job<K>], n: usize, chains: &Chains, i: usize) -> K
    requires sound { Sound K.Amount.width K.Amount.reading jobs.now n }
    requires chained { ChainedBy n (par_of jobs.now n) chains.now }
    requires job { In n i }
    ensures { (a : ℕ) → K.Amount.reading result a ≡ kids n (par_of jobs.now n) (output_of K.Amount.reading jobs.now a) i }
{
    let mut total = K::zero();
    let mut child = chains.first[i] as usize;
    while child != 0 {
        let job = &jobs[child];
        total = plus(&total, &job.output);
        child = chains.next[child] as usize;
    }
    total
}
