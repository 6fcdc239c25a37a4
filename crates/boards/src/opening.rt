ghost use Rattle.std.specs.Prelude.{◌≡◌, [], OnErr};
ghost use Rattle.refusals.specs.Judged.{Judged};
ghost use Rattle.peaks.specs.Surveyed.{Surveyed};
ghost use Rattle.boards.specs.Course.{Led};
ghost use Rattle.boards.specs.Faults.{OpenFault, as_opened};

use super::board::Board;
use super::lay::lay;
use amounts::Amount;
use jobs::Job;
use peaks::{Survey, check_hall, first_over, survey_of};
use refusals::Refusal;
use rules::{Hall, Rule};

/// What is to be opened: the tree of the jobs 1 to `jobs` with its line, and a hall.
#[derive(Clone, Copy)]
pub struct Setup<'a, K> {
    pub jobs: usize,
    pub line: &'a [u32],
    pub benches: usize,
    pub floor: K,
}

impl<K: Amount, R: Rule<K>> Board<K, R> {
    /// A board that is not open: it has no bench and no job, so it refuses every call.
    pub fn new(rule: R) -> Board<K, R>
        ensures { (result.rule ≡ rule) × ((result.hall.benches ≡ 0) × (result.hall.jobs ≡ 0)) }
    {
        Board {
            hall: Hall::new(0, 0, K::zero()),
            rule,
        }
    }

    /// Opens what the setup says, anew if a tree is open: every job waits.
    pub fn open(&mut self, jobs: &mut [Job<K>], setup: &Setup<K>) -> Result<(), Refusal>
        ensures judged { Judged (OpenFault K.Amount.width K.Amount.reading R.Rule.acts self.old.rule jobs.old setup.now) (λ _. Led K.Amount.width K.Amount.reading R.Rule.acts (as_opened K.Amount.reading jobs.old setup.now) [] self.new jobs.new) result }
        ensures still { OnErr result ((self.new ≡ self.old) × (jobs.new ≡ jobs.old)) }
    {
        let survey = self.admit(jobs, setup)?;
        lay(jobs, setup.jobs, &survey);
        self.hall = Hall::new(setup.jobs, setup.benches, setup.floor);
        self.rule.opening(&self.hall, jobs, setup.line);
        Ok(())
    }

    /// Looks for what refuses an opening, in its order.
    fn admit(&self, jobs: &[Job<K>], setup: &Setup<K>) -> Result<Survey, Refusal>
        ensures { Judged (OpenFault K.Amount.width K.Amount.reading R.Rule.acts self.now.rule jobs.now setup.now) (Surveyed K.Amount.width K.Amount.reading jobs.now setup.now.jobs setup.now.line.now) result }
    {
        let survey = survey_of(jobs, setup.jobs, setup.line)?;
        check_hall(setup.benches, &setup.floor)?;
        self.rule.check(jobs, setup.jobs, setup.line)?;
        if let Some(position) = first_over(jobs, setup.jobs, setup.line, &setup.floor)? {
            return Err(Refusal::FloorExceeded { position });
        }
        Ok(survey)
    }
}
