ghost use Rattle.std.specs.Prelude.{◌≡◌, ℕ, ◌<◌, ◌≤◌, map, length, take, slice_index};
ghost use Rattle.intake.specs.Taken.{Rechained};

use amounts::Amount;
use jobs::Job;
use trees::Chains;

/// Fills the row with the parents of the records from the first on.
pub(crate) fn copy_parents<K: Amount>(jobs: &[Job<K>], row: &mut [u32])
    requires { length row.old ≤ length jobs.now }
    ensures { row.new ≡ take (length row.old) (map (λ j. j.parent) jobs.now) }
{
    for (i, cell) in row.iter_mut().enumerate() {
        *cell = jobs[i].parent;
    }
}

/// Writes the chains of the jobs 1 to `n` into their records.
pub(crate) fn set_chains<K: Amount>(jobs: &mut [Job<K>], n: usize, chains: &Chains)
    requires { (n < length jobs.old) × (n ≤ 4095) }
    ensures { Rechained n (λ k. slice_index chains.now.first k) (λ k. slice_index chains.now.next k) jobs.old jobs.new }
{
    for i in 1..n + 1 {
        let job = jobs[i];
        jobs[i] = Job {
            first_child: chains.first[i],
            next_sibling: chains.next[i],
            ..job
        };
    }
}
