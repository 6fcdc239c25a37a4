ghost use Rattle.std.specs.Prelude.{Some};
ghost use Rattle.logs.specs.Counts.{counted};

use jobs::State;
use std::fmt;

/// What is asked of a board.
#[derive(Clone, Copy, Debug, PartialEq, Eq)]
pub enum Call {
    /// The bench is free for a job.
    Start(usize),
    /// The bench has done its job.
    Report(usize),
    /// How does the job stand?
    Ask(usize),
}

/// What came of the calls so far.
#[derive(Clone, Copy)]
pub struct Tally {
    /// How many starts were granted.
    pub starts: usize,
    /// How many reports were granted.
    pub reports: usize,
    /// How many jobs are not done.
    pub left: usize,
}

/// The three counts, parted by spaces.
impl fmt::Display for Tally {
    ghost output = { λ t. Some (counted t) };

    fn fmt<W: fmt::Write>(&self, f: &mut fmt::Formatter<W>) -> fmt::Result {
        let (starts, reports) = (self.starts, self.reports);
        let left = self.left;
        write!(f, "{starts} {reports} {left}")
    }
}

/// How a job and the hall stand.
#[derive(Clone, Copy)]
pub struct Sight<K> {
    pub state: State,
    /// What the jobs hold of the floor.
    pub held: K,
    /// What came of the calls since the opening.
    pub tally: Tally,
}

/// What a board answers to a call that it grants.
#[derive(Clone, Copy)]
pub enum Answer<K> {
    /// The bench starts this job.
    Started(usize),
    /// This job is done, and its bench is idle.
    Done(usize),
    Told(Sight<K>),
}
