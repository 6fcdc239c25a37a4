ghost use Rattle.std.specs.Prelude.{◌≡◌, ℕ, ◌+◌, ◌-◌, ◌<◌, ◌≤◌, length, IfNone, slice_index};
ghost use Rattle.refusals.specs.Judged.{Judged};
ghost use Rattle.trees.specs.Found.{jobs_in, par_in, TreeRow, Lowest};
ghost use Rattle.trees.specs.Sums.{In};
ghost use Rattle.lines.specs.Checks.{Misfit, Entered, Early, Placed};
ghost use Rattle.lines.specs.Faults.{LineFault};

use refusals::Refusal;
use trees::{Parents, check_parents};

/// The position, from 1, of each job in a row that is a line of the tree; 0 where there is no job.
pub fn positions(parents: &[u32], row: &[u32]) -> Result<[u32; 4096], Refusal>
    ensures { Judged (LineFault (jobs_in parents.now) (par_in parents.now) row.now) (Placed (jobs_in parents.now) (par_in parents.now) row.now) result }
{
    check_parents(parents)?;
    let mut places = [0u32; 4096];
    check_line(parents, row, &mut places)?;
    Ok(places)
}

/// The same, where the parents are known to make a tree.
pub fn places_in(tree: &Parents, row: &[u32]) -> Result<[u32; 4096], Refusal>
    ensures { Judged (LineFault (jobs_in tree.now) (par_in tree.now) row.now) (Placed (jobs_in tree.now) (par_in tree.now) row.now) result }
{
    let mut places = [0u32; 4096];
    check_line(tree.row(), row, &mut places)?;
    Ok(places)
}

/// Enters the position of each job, where the row is a line of the tree.
fn check_line(parents: &[u32], row: &[u32], places: &mut [u32]) -> Result<(), Refusal>
    requires tree { TreeRow parents.now }
    requires room { jobs_in parents.now < length places.old }
    requires clear { (k : ℕ) → slice_index places.old k ≡ 0 }
    ensures { Judged (LineFault (jobs_in parents.now) (par_in parents.now) row.now) (λ _. Placed (jobs_in parents.now) (par_in parents.now) row.now places.new) result }
{
    if let Some(position) = first_misfit(parents.len() - 1, row, places) {
        return Err(Refusal::LineEntry { position });
    }
    if let Some(position) = first_early(parents, places) {
        return Err(Refusal::LineOrder { position });
    }
    Ok(())
}

/// Enters the place of each number of the row, up to the first position that does not fit.
fn first_misfit(jobs: usize, row: &[u32], places: &mut [u32]) -> Option<usize>
    requires few { (jobs ≤ 4095) × (jobs < length places.old) }
    requires clear { (k : ℕ) → slice_index places.old k ≡ 0 }
    ensures lowest { Lowest (jobs + 1) (Misfit jobs row.now) result }
    ensures entered { IfNone result (Entered jobs row.now places.new) }
{
    for (i, entry) in row.iter().enumerate() {
        let job = *entry as usize;
        if i >= jobs || job == 0 || job > jobs || places[job] != 0 {
            return Some(i + 1);
        }
        places[job] = i as u32 + 1;
    }
    if row.len() < jobs {
        return Some(row.len() + 1);
    }
    None
}

/// The first place of a parent that stands no later than one of its children.
fn first_early(parents: &[u32], places: &[u32]) -> Option<usize>
    requires tree { TreeRow parents.now }
    requires long { jobs_in parents.now < length places.now }
    requires placed { (k : ℕ) → In (jobs_in parents.now) k → In (jobs_in parents.now) (slice_index places.now k) }
    ensures { Lowest (jobs_in parents.now) (Early (jobs_in parents.now) (par_in parents.now) (λ k. slice_index places.now k)) result }
{
    (1..parents.len())
        .filter_map(|job| {
            let parent = parents[job] as usize;
            let place = places[parent] as usize;
            (parent != 0 && place <= places[job] as usize).then_some(place)
        })
        .min()
}
