//! Walks along the chain of a job's children. The records are lent, and their owner may have
//! altered them: a chain runs in rising job numbers, so a next child that is not above the last
//! one, or has no record, belongs to no tree, and the walk stops there.
ghost use Rattle.std.specs.Prelude.{◌≡◌, ℕ, ◌+◌, MatchOption};
ghost use Rattle.std.specs.Iterator.{at_most};
ghost use Rattle.trees.specs.Sums.{In};
ghost use Rattle.trees.specs.Trees.{kids};
ghost use Rattle.jobs.specs.Fields.{work_of, output_of};
ghost use Rattle.intake.specs.Faults.{par_of};
ghost use Rattle.logs.specs.Stands.{startable as Startable};
ghost use Rattle.rules.specs.Records.{state_in, ChainedRecords};
ghost use Rattle.rules.specs.Children.{Gives, steps_left};

use amounts::Amount;
use jobs::{Job, State};

/// The chain of a job's children breaks off.
#[derive(Clone, Copy)]
struct Broken;

/// The records of a job's children, in rising job numbers. The last item is an error where the
/// chain breaks off.
#[derive(Drop)]
struct Children<'a, K> {
    jobs: &'a [Job<K>],
    /// The last child that was given; 0 before the first.
    last: usize,
    /// The next child; 0 at the end of the chain.
    next: usize,
}

impl<'a, K> Children<'a, K> {
    /// The walk before the first child.
    fn of(jobs: &'a [Job<K>], parent: &Job<K>) -> Children<'a, K>
        ensures lent { result.jobs.now ≡ jobs.now }
        ensures first { (result.last ≡ 0) × (result.next ≡ parent.now.first_child) }
    {
        Children {
            jobs,
            last: 0,
            next: parent.first_child as usize,
        }
    }
}

impl<'a, K> Iterator for Children<'a, K> {
    type Item = Result<&'a Job<K>, Broken>;

    ghost next_gives = { Gives };

    ghost remaining = { λ s. at_most (steps_left s) };

    fn next(&mut self) -> Option<Result<&'a Job<K>, Broken>> {
        let child = self.next;
        if child == 0 {
            return None;
        }
        if child <= self.last || child >= self.jobs.len() {
            self.next = 0;
            return Some(Err(Broken));
        }
        let record = &self.jobs[child];
        self.last = child;
        self.next = record.next_sibling as usize;
        Some(Ok(record))
    }
}

/// What a job gives back to the floor when it is done: its work and its inputs, the outputs of its
/// children; none only where the records are not those of a tree.
pub fn freed<K: Amount>(jobs: &[Job<K>], job: usize) -> Option<K>
    ensures { (n : ℕ) → ChainedRecords K.Amount.width K.Amount.reading jobs.now n → In n job → MatchOption result ⊥ (λ x. (a : ℕ) → K.Amount.reading x a ≡ work_of K.Amount.reading jobs.now a job + kids n (par_of jobs.now n) (output_of K.Amount.reading jobs.now a) job) }
{
    let record = jobs.get(job)?;
    let mut given = K::zero();
    for child in Children::of(jobs, record) {
        given = given.sum(&child.ok()?.output)?;
    }
    record.work.sum(&given)
}

/// Whether the job waits and all its children are done.
pub fn startable<K: Amount>(jobs: &[Job<K>], job: usize) -> bool
    ensures { (n : ℕ) → ChainedRecords K.Amount.width K.Amount.reading jobs.now n → In n job → result ≡ Startable n (par_of jobs.now n) (state_in n jobs.now) job }
{
    let Some(record) = jobs.get(job) else {
        return false;
    };
    let State::Waiting = record.state else {
        return false;
    };
    for child in Children::of(jobs, record) {
        let Ok(child) = child else {
            return false;
        };
        let State::Done = child.state else {
            return false;
        };
    }
    true
}
