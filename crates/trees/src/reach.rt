ghost use Rattle.std.specs.Prelude.{◌≡◌, ℕ, ◌+◌, ◌-◌, ◌<◌, ◌≤◌, Bool, true, false, length, MatchBool};
ghost use Rattle.trees.specs.Sums.{In};
ghost use Rattle.trees.specs.Trees.{Reaches};
ghost use Rattle.trees.specs.Found.{jobs_in, par_in, Lost};
ghost use Rattle.trees.specs.Marks.{Marked};

/// Goes up from `job` over jobs that no walk has marked, and marks them with its number. The walk
/// is out of the tree, or on a way that led out before: true; or it is back on its own marks: false.
fn climb(parents: &[u32], marks: &mut [u32], job: usize) -> bool
    requires job { (In (jobs_in parents.now) job) × (job ≤ 4095) }
    requires inside { (k : ℕ) → In (jobs_in parents.now) k → par_in parents.now k ≤ jobs_in parents.now }
    requires room { length parents.now ≤ length marks.old }
    requires marked { Marked (par_in parents.now) marks.old job }
    ensures { MatchBool result (Marked (par_in parents.now) marks.new (job + 1) × Reaches (par_in parents.now) job) (Reaches (par_in parents.now) job → ⊥) }
{
    let mut at = job;
    while at != 0 && marks[at] == 0 {
        marks[at] = job as u32;
        at = parents[at] as usize;
    }
    at == 0 || marks[at] != job as u32
}

/// The lowest job from which the way up never ends. Each job is marked once, whatever the shape.
pub(crate) fn lowest_unreached(parents: &[u32]) -> Option<usize>
    requires few { length parents.now ≤ 4096 }
    requires inside { (k : ℕ) → In (jobs_in parents.now) k → par_in parents.now k ≤ jobs_in parents.now }
    ensures { Lost (jobs_in parents.now) (par_in parents.now) result }
{
    let mut marks = [0u32; 4096];
    for job in 1..parents.len() {
        if !climb(parents, &mut marks, job) {
            return Some(job);
        }
    }
    None
}
