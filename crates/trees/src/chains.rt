ghost use Rattle.std.specs.Prelude.{◌≡◌, ℕ, ◌-◌, ◌<◌, ◌≤◌, length, slice_index};
ghost use Rattle.refusals.specs.Judged.{Judged};
ghost use Rattle.trees.specs.Chains.{ChainsOf};
ghost use Rattle.trees.specs.Trees.{ChainedWhole};
ghost use Rattle.trees.specs.Faults.{ParentFault};
ghost use Rattle.trees.specs.Found.{jobs_in, par_in, TreeRow};

use super::parents::Parents;
use refusals::Refusal;

/// The children of each job of a tree in rising numbers, as chains: the lowest child of a job, and
/// the next child of the same parent. 0 ends a chain, and the chain of 0 has the root.
#[derive(Drop)]
pub struct Chains {
    pub first: [u32; 4096],
    pub next: [u32; 4096],
}

/// Links the jobs from the last down, so that each comes in front of its higher siblings.
fn link(parents: &[u32], first: &mut [u32], next: &mut [u32])
    requires tree { TreeRow parents.now }
    requires room { (length parents.now ≤ length first.old) × (length parents.now ≤ length next.old) }
    requires clear { (k : ℕ) → (slice_index first.old k ≡ 0) × (slice_index next.old k ≡ 0) }
    ensures { ChainedWhole (jobs_in parents.now) (par_in parents.now) (λ k. slice_index first.new k) (λ k. slice_index next.new k) }
{
    for job in (1..parents.len()).rev() {
        let parent = parents[job] as usize;
        next[job] = first[parent];
        first[parent] = job as u32;
    }
}

impl Parents {
    /// The chains of the tree.
    pub fn chains(&self) -> Chains
        ensures { ChainsOf self.now result }
    {
        let mut first = [0u32; 4096];
        let mut next = [0u32; 4096];
        link(self.row(), &mut first, &mut next);
        Chains { first, next }
    }
}

/// The chains of the tree that the parents make.
pub fn chains_of(parents: &[u32]) -> Result<Chains, Refusal>
    ensures { Judged (ParentFault (jobs_in parents.now) (par_in parents.now)) (ChainsOf parents.now) result }
{
    Ok(Parents::of(parents)?.chains())
}
