ghost use Rattle.std.specs.Prelude.{ℕ, length, IfOk};
ghost use Rattle.verdicts.specs.Answered.{Answered};

use amounts::Amount;
use checks::carried;
use jobs::Job;
use refusals::{MOST_JOBS, Refusal};
use std::alloc::{AllocError, Global};
use texts::read;

/// Records for the most jobs that a tree has, and record 0.
const RECORDS: usize = MOST_JOBS + 1;

/// A run that the hall can carry: its jobs, the peak of its plain line, and the floor.
#[derive(Clone, Copy)]
pub struct Fit<K> {
    pub jobs: usize,
    pub peak: K,
    pub floor: K,
}

/// Reads a text into the records and checks the hall with it.
fn judge<K: Amount>(text: &[u8], records: &mut [Job<K>]) -> Result<Fit<K>, Refusal>
    ensures { Answered K.Amount.width K.Amount.reading (length records.old) text.now result }
{
    let heading = read(text, records)?;
    let peak = carried(records, heading.jobs, heading.benches, &heading.floor)?;
    Ok(Fit {
        jobs: heading.jobs,
        peak,
        floor: heading.floor,
    })
}

/// Whether a hall can carry the run of a text.
pub fn check_text<K: Amount>(
    heap: Global,
    text: &[u8],
) -> Result<Result<Fit<K>, Refusal>, AllocError>
    ensures { IfOk result (Answered K.Amount.width K.Amount.reading 4096 text.now) }
{
    let blank: Job<K> = Job::new(0, K::zero(), K::zero(), 0);
    let mut records = vec![in heap; blank; RECORDS]?;
    Ok(judge(text, &mut records))
}
