//! Every refusal of the program, one case each, with the four numbers by which it is told, and the
//! bounds that are refused when they are passed.
#![tactic(auto)]

ghost use Rattle.std.specs.Prelude.{◌≡◌, ℕ, ◌<◌, ◌≤◌, ◌⊎◌, Some};
ghost use Rattle.refusals.specs.Judged.{OrderDecides};
ghost use Rattle.refusals.specs.Told.{told, refused};

mod bounds;

pub use bounds::{
    AXIS_BOUND, FLOOR_BOUND, MINUTES_BOUND, MOST_AXES, MOST_BENCHES, MOST_BYTES, MOST_JOBS,
};
use std::fmt;

/// Why a call was refused. What a case carries is told as its place; a text is told by line and
/// column.
#[derive(Clone, Copy)]
pub enum Refusal {
    /// The text is empty or above 65,536 bytes.
    TextSize,
    /// No text goes on with the byte that stands here, or the text ends too soon.
    TextByte { line: usize, column: usize },
    /// A number that begins here is above its bound.
    TextNumber { line: usize, column: usize },
    /// No job, more than 4,095 jobs, or too few records.
    JobCount { jobs: usize },
    /// The kind of amount has more than 64 axes.
    TooManyAxes,
    /// An axis of the job's work or output, or its minutes, are above their bound.
    JobBound { job: usize },
    /// The job's parent is above the job count.
    ParentMissing { job: usize },
    /// Every job has a parent.
    NoRoot,
    /// The job is the second without a parent.
    SecondRoot { job: usize },
    /// The job's parents never reach the root.
    RootUnreached { job: usize },
    /// The line lacks this position, its job number is no job's or stood earlier, or the line goes
    /// on past the last job.
    LineEntry { position: usize },
    /// The job at this position stands before one of its children.
    LineOrder { position: usize },
    /// Not 1 to 64 benches.
    Benches,
    /// An axis of the floor is above 1,000,000,000.
    Floor,
    /// The booking rule takes no job with work above zero.
    BookingWork { job: usize },
    /// The booking rule takes no job with children whose output does not fit its inputs.
    BookingOutput { job: usize },
    /// The booking rule takes no line in which the subtree of this job does not stand together.
    BookingApart { job: usize },
    /// What stands at this position does not fit the floor.
    FloorExceeded { position: usize },
    /// The bench number is outside the board.
    BenchUnknown,
    /// The job number is outside the tree.
    JobUnknown,
    /// The memory for a line is too small.
    LineMemory { needed: usize },
    /// The memory for rows is too small.
    RowMemory { needed: usize },
    /// The memory for the sheet's bytes is too small.
    SheetMemory { needed: usize },
    /// The memory for entries is too small.
    EntryMemory { needed: usize },
    /// The memory for leads is too small.
    LeadMemory { needed: usize },
    /// A start on a busy bench.
    BenchBusy { bench: usize },
    /// A report of an idle bench.
    BenchIdle { bench: usize },
    /// Every job has been started.
    AllStarted { bench: usize },
    /// The rule names no job.
    NoneNamed { bench: usize },
    /// The job records were altered since the board last saw them.
    Altered { bench: usize },
}

impl Refusal {
    /// The refusal's number.
    pub fn number(&self) -> u32
        ensures { result ≡ (told self.now).number }
    {
        match self {
            Refusal::TextSize => 1,
            Refusal::TextByte { .. } => 2,
            Refusal::TextNumber { .. } => 3,
            Refusal::JobCount { .. } => 4,
            Refusal::TooManyAxes | Refusal::JobBound { .. } => 5,
            Refusal::ParentMissing { .. } => 6,
            Refusal::NoRoot | Refusal::SecondRoot { .. } => 7,
            Refusal::RootUnreached { .. } => 8,
            Refusal::LineEntry { .. } => 9,
            Refusal::LineOrder { .. } => 10,
            Refusal::Benches => 11,
            Refusal::Floor => 12,
            Refusal::BookingWork { .. } => 13,
            Refusal::BookingOutput { .. } => 14,
            Refusal::BookingApart { .. } => 15,
            Refusal::FloorExceeded { .. } => 16,
            Refusal::BenchUnknown => 17,
            Refusal::JobUnknown => 18,
            Refusal::LineMemory { .. }
            | Refusal::RowMemory { .. }
            | Refusal::SheetMemory { .. }
            | Refusal::EntryMemory { .. }
            | Refusal::LeadMemory { .. } => 19,
            Refusal::BenchBusy { .. } => 21,
            Refusal::BenchIdle { .. } => 22,
            Refusal::AllStarted { .. } => 23,
            Refusal::NoneNamed { .. } => 24,
            Refusal::Altered { .. } => 25,
        }
    }

    /// The layer that refuses: 1 the text, 2 the tree, 3 the line, 4 the board.
    pub fn layer(&self) -> u32
        ensures { result ≡ (told self.now).layer }
    {
        match self.number() {
            ..=3 => 1,
            ..=8 => 2,
            ..=10 => 3,
            _ => 4,
        }
    }

    /// The place: a line of the text, a job, a position, a count that is needed or a bench.
    pub fn place(&self) -> usize
        ensures { result ≡ (told self.now).place }
    {
        match *self {
            Refusal::TextByte { line, .. } | Refusal::TextNumber { line, .. } => line,
            Refusal::JobCount { jobs } => jobs,
            Refusal::JobBound { job }
            | Refusal::ParentMissing { job }
            | Refusal::SecondRoot { job }
            | Refusal::RootUnreached { job }
            | Refusal::BookingWork { job }
            | Refusal::BookingOutput { job }
            | Refusal::BookingApart { job } => job,
            Refusal::LineEntry { position }
            | Refusal::LineOrder { position }
            | Refusal::FloorExceeded { position } => position,
            Refusal::LineMemory { needed }
            | Refusal::RowMemory { needed }
            | Refusal::SheetMemory { needed }
            | Refusal::EntryMemory { needed }
            | Refusal::LeadMemory { needed } => needed,
            Refusal::BenchBusy { bench }
            | Refusal::BenchIdle { bench }
            | Refusal::AllStarted { bench }
            | Refusal::NoneNamed { bench }
            | Refusal::Altered { bench } => bench,
            Refusal::TextSize
            | Refusal::TooManyAxes
            | Refusal::NoRoot
            | Refusal::Benches
            | Refusal::Floor
            | Refusal::BenchUnknown
            | Refusal::JobUnknown => 0,
        }
    }

    /// The column of the text; 0 outside it.
    pub fn column(&self) -> usize
        ensures { result ≡ (told self.now).column }
    {
        match *self {
            Refusal::TextByte { column, .. } | Refusal::TextNumber { column, .. } => column,
            _ => 0,
        }
    }
}

/// The word `refused`, and the four numbers by which the refusal is told.
impl fmt::Display for Refusal {
    ghost output = { λ e. Some (refused e) };

    fn fmt<W: fmt::Write>(&self, f: &mut fmt::Formatter<W>) -> fmt::Result {
        let (layer, number) = (self.layer(), self.number());
        let (place, column) = (self.place(), self.column());
        write!(f, "refused {layer} {number} {place} {column}")
    }
}

/// The order in which refusals are told leaves no choice.
pub fn order_decides() -> bool
    ensures { OrderDecides }
{
    true
}
