ghost use Rattle.std.specs.Prelude.{◌≡◌, ℕ, ◌+◌, ◌-◌, ◌^◌, ◌<◌, ◌≤◌, min, length, ◌≢◌, slice_index};
ghost use Rattle.refusals.specs.Judged.{Judged};
ghost use Rattle.trees.specs.Found.{jobs_in, par_in, TreeRow, Lowest};
ghost use Rattle.trees.specs.Lines.{Line, place};
ghost use Rattle.trees.specs.Sums.{In};
ghost use Rattle.lines.specs.Faults.{LineFault};
ghost use Rattle.lines.specs.Spans.{members, Begins, Apart, size_of, low_of};

use super::check::positions;
use refusals::Refusal;

/// What is gathered of a job's subtree: how many jobs it has, and the first of their places.
#[derive(Clone, Copy)]
struct Span {
    size: u32,
    low: u32,
}

impl Span {
    /// Takes in the span of a child.
    fn take_in(&mut self, child: Span)
        requires { self.old.size + child.size < 2 ^ 32 }
        ensures { (self.new.size ≡ self.old.size + child.size) × (self.new.low ≡ min self.old.low child.low) }
    {
        self.size += child.size;
        self.low = self.low.min(child.low);
    }
}

/// The lowest job whose subtree does not stand together in the line, if there is one.
pub fn lowest_apart(parents: &[u32], row: &[u32]) -> Result<Option<usize>, Refusal>
    ensures { Judged (LineFault (jobs_in parents.now) (par_in parents.now) row.now) (Apart (jobs_in parents.now) (par_in parents.now) row.now) result }
{
    let places = positions(parents, row)?;
    let mut cells = [Span { size: 0, low: 0 }; 4096];
    let spans = &mut cells[..parents.len()];
    set_alone(&places, spans);
    gather(parents, row, spans);
    Ok(first_apart(parents.len(), &places, spans))
}

/// Makes each span that of its job alone.
fn set_alone(places: &[u32], spans: &mut [Span])
    requires { length spans.old ≤ length places.now }
    ensures { (k : ℕ) → k < length spans.old → (size_of spans.new k ≡ 1) × (low_of spans.new k ≡ slice_index places.now k) }
{
    for (job, span) in spans.iter_mut().enumerate() {
        *span = Span {
            size: 1,
            low: places[job],
        };
    }
}

/// Gathers each subtree, from the first job of the line to the last, so that all children of a job
/// come before it. Before, the span of each job is of that job alone.
fn gather(parents: &[u32], row: &[u32], spans: &mut [Span])
    requires tree { TreeRow parents.now }
    requires line { Line (jobs_in parents.now) (par_in parents.now) row.now }
    requires long { jobs_in parents.now < length spans.old }
    requires alone { (k : ℕ) → k ≤ jobs_in parents.now → size_of spans.old k ≡ 1 }
    requires placed { (k : ℕ) → In (jobs_in parents.now) k → low_of spans.old k ≡ place k row.now }
    ensures sizes { (k : ℕ) → In (jobs_in parents.now) k → size_of spans.new k ≡ members (jobs_in parents.now) (par_in parents.now) k }
    ensures lows { (k : ℕ) → In (jobs_in parents.now) k → Begins (jobs_in parents.now) (par_in parents.now) row.now k (low_of spans.new k) }
{
    for entry in row {
        let job = *entry as usize;
        let parent = parents[job] as usize;
        // one field at a time, as they were written: both at once took half as long again
        let whole = Span {
            size: spans[job].size,
            low: spans[job].low,
        };
        spans[parent].take_in(whole);
    }
}

/// The first job below `end` with more places from its subtree's first to its own than members.
fn first_apart(end: usize, places: &[u32], spans: &[Span]) -> Option<usize>
    requires long { (end ≤ length places.now) × (end ≤ length spans.now) }
    requires few { (k : ℕ) → In (end - 1) k → (slice_index places.now k ≤ 4095) × (size_of spans.now k ≤ 4095) × (low_of spans.now k ≤ 4095) }
    ensures { Lowest (end - 1) (λ k. low_of spans.now k + size_of spans.now k ≢ slice_index places.now k + 1) result }
{
    (1..end).find(|&job| spans[job].low + spans[job].size != places[job] + 1)
}
