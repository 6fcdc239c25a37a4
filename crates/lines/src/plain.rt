ghost use Rattle.std.specs.Prelude.{◌≡◌, ℕ, ◌+◌, ◌-◌, ◌<◌, ◌≤◌, length, take, drop, MatchResult};
ghost use Rattle.refusals.specs.Judged.{Judged};
ghost use Rattle.trees.specs.Found.{jobs_in, par_in};
ghost use Rattle.trees.specs.Lines.{Plain};
ghost use Rattle.trees.specs.Sums.{In};
ghost use Rattle.trees.specs.Chains.{ChainsOf};
ghost use Rattle.lines.specs.Faults.{RoomFault};
ghost use Rattle.lines.specs.Walk.{Foremost};
ghost use Rattle.lines.specs.Unique.{OnePlain};

use refusals::Refusal;
use trees::{Chains, Parents};

/// Writes the plain line of the tree into the front of the row: the postorder that takes children
/// in rising numbers. The rest of the row stays.
pub fn plain_line(parents: &[u32], row: &mut [u32]) -> Result<(), Refusal>
    ensures judged { Judged (RoomFault (jobs_in parents.now) (par_in parents.now) (length row.old)) (λ _. Plain (jobs_in parents.now) (par_in parents.now) (take (jobs_in parents.now) row.new)) result }
    ensures rest { MatchResult result (λ _. drop (jobs_in parents.now) row.new ≡ drop (jobs_in parents.now) row.old) (λ _. row.new ≡ row.old) }
{
    plain_in(&Parents::of(parents)?, row)
}

/// The same, where the parents are known to make a tree.
pub fn plain_in(tree: &Parents, row: &mut [u32]) -> Result<(), Refusal>
    ensures judged { Judged (RoomFault (jobs_in tree.now) (par_in tree.now) (length row.old)) (λ _. Plain (jobs_in tree.now) (par_in tree.now) (take (jobs_in tree.now) row.new)) result }
    ensures rest { MatchResult result (λ _. drop (jobs_in tree.now) row.new ≡ drop (jobs_in tree.now) row.old) (λ _. row.new ≡ row.old) }
{
    let (needed, parents) = (tree.jobs(), tree.row());
    if row.len() < needed {
        return Err(Refusal::LineMemory { needed });
    }
    write_line(parents, &tree.chains(), &mut row[..needed]);
    Ok(())
}

/// The job with which the plain line begins the subtree of `job`: down to first children while
/// there are any.
fn foremost(parents: &[u32], chains: &Chains, job: usize) -> usize
    requires tree { ChainsOf parents.now chains.now }
    requires job { In (jobs_in parents.now) job }
    ensures begins { Foremost (jobs_in parents.now) (par_in parents.now) job result }
    ensures inside { In (jobs_in parents.now) result }
{
    let mut job = job;
    while chains.first[job] != 0 {
        job = chains.first[job] as usize;
    }
    job
}

/// Writes each job as the walk leaves it: from the foremost job of the tree on to that of the next
/// sibling's subtree, or up where there is none.
fn write_line(parents: &[u32], chains: &Chains, row: &mut [u32])
    requires tree { ChainsOf parents.now chains.now }
    requires long { length row.old ≡ jobs_in parents.now }
    ensures { Plain (jobs_in parents.now) (par_in parents.now) row.new }
{
    let root = chains.first[0] as usize;
    let mut job = foremost(parents, chains, root);
    for cell in row.iter_mut() {
        *cell = job as u32;
        let sibling = chains.next[job] as usize;
        job = if sibling == 0 {
            parents[job] as usize
        } else {
            foremost(parents, chains, sibling)
        };
    }
}

/// A tree has one plain line only.
pub fn one_plain_line() -> bool
    ensures { OnePlain }
{
    true
}
