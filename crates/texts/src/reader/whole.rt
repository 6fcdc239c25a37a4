//! A whole text, from its beginning.
ghost use Rattle.std.specs.Prelude.{◌≡◌, length, MatchResult};
ghost use Rattle.prints.specs.Faults.{Refused};
ghost use Rattle.prints.specs.Answers.{Counted, Roomy};
ghost use Rattle.texts.specs.Records.{Granted};

use super::Reader;
use crate::heading::Heading;
use amounts::Amount;
use jobs::Job;
use refusals::Refusal;

impl<K: Amount> Reader<'_, K> {
    /// Reads the text, and counts its jobs.
    pub(crate) fn jobs(mut self) -> Result<usize, Refusal>
        requires { self.pos ≡ 0 }
        ensures { MatchResult result (Counted K.Amount.width self.entry.bytes.now) (Refused K.Amount.width self.entry.bytes.now) }
    {
        self.heading()?;
        let mut count = 0;
        while self.more() {
            self.job()?;
            count += 1;
        }
        Ok(count)
    }

    /// Reads a text that is known to be good once more, into the records from 1 on.
    pub(crate) fn fill(mut self, jobs: usize, records: &mut [Job<K>]) -> Heading<K>
        requires start { self.pos ≡ 0 }
        requires room { Roomy (length records.old) jobs }
        requires good { Counted K.Amount.width self.bytes.now jobs }
        ensures { Granted K.Amount.reading K.Amount.width self.entry.bytes.now records.old records.new result }
    {
        let heading = self.heading().unwrap();
        for record in &mut records[1..=jobs] {
            *record = self.job().unwrap();
        }
        Heading { jobs, ..heading }
    }
}
