//! The record of a job, for any kind of amount.
#![tactic(auto)]

ghost use Rattle.std.specs.Prelude.{◌≡◌, ℕ};
ghost use Rattle.amounts.specs.Axes.{Same};
ghost use Rattle.jobs.specs.declared.State.TheVariants.{Waiting};

mod standing;

use amounts::Amount;

/// Where a job stands: it waits, runs on one bench, or is done.
#[derive(Clone, Copy)]
pub enum State {
    Waiting,
    Running(u32),
    Done,
}

/// A job of a run. Jobs are numbered from 1; 0 stands for no job.
#[derive(Clone, Copy)]
pub struct Job<K> {
    /// The job that takes this one's output; 0 for the root.
    pub parent: u32,
    /// What the job needs beside its output while it runs.
    pub work: K,
    /// What the job leaves standing until its parent is done.
    pub output: K,
    /// The minutes that are planned for it.
    pub minutes: u32,
    /// The lowest child; 0 for a leaf.
    pub first_child: u32,
    /// The next child of the same parent; 0 for the last.
    pub next_sibling: u32,
    pub state: State,
    /// The job's position in the line, from 1.
    pub position: u32,
    /// What the booking rule books for the parent when this job is counted.
    pub share: K,
    /// What the booking rule has booked for this job.
    pub booked: K,
}

impl<K: Amount> Job<K> {
    /// A job that waits, with no children, no position and nothing booked.
    pub fn new(parent: u32, work: K, output: K, minutes: u32) -> Job<K>
        ensures typed { (result.parent ≡ parent) × ((result.work ≡ work) × ((result.output ≡ output) × (result.minutes ≡ minutes))) }
        ensures links { (result.first_child ≡ 0) × ((result.next_sibling ≡ 0) × (result.position ≡ 0)) }
        ensures waits { result.state ≡ Waiting }
        ensures booked { (Same K.Amount.reading result.share (λ _. 0)) × (Same K.Amount.reading result.booked (λ _. 0)) }
    {
        Job {
            parent,
            work,
            output,
            minutes,
            first_child: 0,
            next_sibling: 0,
            state: State::Waiting,
            position: 0,
            share: K::zero(),
            booked: K::zero(),
        }
    }
}
