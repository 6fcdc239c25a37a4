//! The reader of a run's text, for any kind of amount.
#![tactic(auto)]

ghost use Rattle.std.specs.Prelude.{◌≡◌, ℕ, ◌≤◌, true, length, is_ok, MatchResult};
ghost use Rattle.prints.specs.Runs.{Run};
ghost use Rattle.prints.specs.Faults.{Refused};
ghost use Rattle.prints.specs.Answers.{Counted, Roomy, Good, Said};
ghost use Rattle.texts.specs.Records.{Granted};

mod heading;
mod reader;

use amounts::Amount;
pub use heading::{Heading, Rule, UnknownLetter};
use jobs::Job;
use reader::Reader;
use refusals::{MOST_AXES, MOST_BYTES, MOST_JOBS, Refusal};

/// Reads the text of a run into the records from 1 on, and tells its heading.
///
/// The first line is `hall`, the rule's letter, the benches and the floor; each line after it is
/// `job`, the parent, the work, the output and the minutes. One space stands between two fields, a
/// slash between two axes of an amount, and byte 10 ends each line. Numbers are decimal, with no
/// leading zero. A refusal leaves the records as they were.
pub fn read<K: Amount>(text: &[u8], records: &mut [Job<K>]) -> Result<Heading<K>, Refusal>
    ensures told { MatchResult result (λ h. Granted K.Amount.reading K.Amount.width text.now records.old records.new h) (λ e. Said K.Amount.width text.now (length records.old) e × (records.new ≡ records.old)) }
    ensures complete { (run : Run) → Good K.Amount.width text.now (length records.old) run → is_ok result ≡ true }
{
    if K::count() > MOST_AXES {
        return Err(Refusal::TooManyAxes);
    }
    if text.is_empty() || text.len() > MOST_BYTES {
        return Err(Refusal::TextSize);
    }
    let jobs = Reader::<K>::new(text).jobs()?;
    if jobs == 0 || jobs > MOST_JOBS || jobs >= records.len() {
        return Err(Refusal::JobCount { jobs });
    }
    Ok(Reader::new(text).fill(jobs, records))
}
