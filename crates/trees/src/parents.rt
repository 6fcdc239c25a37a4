ghost use Rattle.std.specs.Prelude.{◌≡◌, ℕ, List, ◌+◌, ◌-◌, ◌<◌, ◌≤◌, length, take};
ghost use Rattle.refusals.specs.Judged.{Judged};
ghost use Rattle.trees.specs.Trees.{Tree};
ghost use Rattle.trees.specs.Faults.{ParentFault};
ghost use Rattle.trees.specs.Found.{jobs_in, par_in, laid, TreeRow, Lowest, LowestFrom, Roots};
ghost use Rattle.std.proofs.Common.{arith, length-take};

use super::reach::lowest_unreached;
use refusals::{MOST_JOBS, Refusal};
use std::marker::Model;

/// The parents of the jobs of a tree: that of job `i` stands at `i`, 0 for the root; the first cell
/// is spare, and those past the last job are 0.
#[derive(Clone, Copy)]
pub struct Parents {
    cells: [u32; 4096],
    jobs: usize,
}

impl Model for Parents {
    ghost Value = { List ℕ };

    ghost view = { λ p. take (p.jobs + 1) p.cells };

    ghost inverse = { λ row. record { cells = laid row; jobs = length row - 1 } };

    ghost inverse_ok = { λ p fits. Prim.grind (arith, length-take (p.jobs + 1) p.cells, fits) };

    ghost invariant = { λ p. (1 ≤ p.jobs) × (p.jobs ≤ 4095) × (length p.cells ≡ 4096) × (p.cells ≡ laid (take (p.jobs + 1) p.cells)) × Tree p.jobs (par_in (take (p.jobs + 1) p.cells)) };
}

impl Parents {
    /// A copy of the row, where it makes a tree.
    pub fn of(row: &[u32]) -> Result<Parents, Refusal>
        ensures { Judged (ParentFault (jobs_in row.now) (par_in row.now)) (λ t. (t ≡ row.now) × TreeRow row.now) result }
    {
        let jobs = check_parents(row)?;
        let mut cells = [0u32; 4096];
        cells[..row.len()].copy_from_slice(row);
        Ok(Parents { cells, jobs })
    }

    /// The parents, from the spare cell on.
    pub fn row(&self) -> &[u32]
        ensures row { result.now ≡ self.now }
        ensures tree { TreeRow self.now }
    {
        &self.cells[..self.jobs + 1]
    }

    /// The number of jobs.
    pub fn jobs(&self) -> usize
        ensures count { result ≡ jobs_in self.now }
        ensures tree { TreeRow self.now }
    {
        self.jobs
    }
}

/// The number of jobs, where their parents make a tree. The parent of job `i` stands at `i`, 0 for
/// the root; the first cell is spare.
pub fn check_parents(parents: &[u32]) -> Result<usize, Refusal>
    ensures { Judged (ParentFault (jobs_in parents.now) (par_in parents.now)) (λ n. (n ≡ jobs_in parents.now) × (1 ≤ n) × (n ≤ 4095) × Tree (jobs_in parents.now) (par_in parents.now)) result }
{
    let jobs = parents.len().saturating_sub(1);
    if jobs == 0 || jobs > MOST_JOBS {
        return Err(Refusal::JobCount { jobs });
    }
    if let Some(job) = lowest_missing(parents) {
        return Err(Refusal::ParentMissing { job });
    }
    one_root(parents)?;
    if let Some(job) = lowest_unreached(parents) {
        return Err(Refusal::RootUnreached { job });
    }
    Ok(jobs)
}

/// The lowest job whose parent is above the job count.
fn lowest_missing(parents: &[u32]) -> Option<usize>
    ensures { Lowest (jobs_in parents.now) (λ k. jobs_in parents.now < par_in parents.now k) result }
{
    (1..parents.len()).find(|&job| parents[job] as usize >= parents.len())
}

/// The first job from `start` on that has no parent.
fn next_root(parents: &[u32], start: usize) -> Option<usize>
    requires { 1 ≤ start }
    ensures { LowestFrom start (jobs_in parents.now) (λ k. par_in parents.now k ≡ 0) result }
{
    (start..parents.len()).find(|&job| parents[job] == 0)
}

/// Just one job has no parent.
fn one_root(parents: &[u32]) -> Result<(), Refusal>
    ensures { Roots (jobs_in parents.now) (par_in parents.now) result }
{
    let Some(root) = next_root(parents, 1) else {
        return Err(Refusal::NoRoot);
    };
    match next_root(parents, root + 1) {
        Some(job) => Err(Refusal::SecondRoot { job }),
        None => Ok(()),
    }
}
