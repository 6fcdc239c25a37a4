ghost use Rattle.std.specs.Prelude.{◌≡◌, ℕ, ◌≤◌, List, ⊤};
ghost use Rattle.refusals.specs.Judged.{Judged};
ghost use Rattle.trees.specs.Lines.{Line};
ghost use Rattle.intake.specs.Faults.{par_of};
ghost use Rattle.intake.specs.Taken.{Sound};
ghost use Rattle.rules.specs.Acts.{Acts};
ghost use Rattle.rules.specs.Records.{Alike};
ghost use Rattle.rules.specs.Reached.{Reached, GrantedOpening, Starting, Reporting};
ghost use Rattle.rules.specs.Duties.{Listed, Safe, Willing};

use super::hall::Hall;
use amounts::Amount;
use jobs::Job;
use refusals::Refusal;

/// A rule of admission. Looking at a board, it names one waiting job or none; it is told of the
/// opening and of each granted start and report, and only then alters its record and its figures
/// in the job records.
pub trait Rule<K: Amount>: Sized {
    /// What the rule means: what it refuses and names, and what it becomes when it is told.
    ghost acts: { Acts Self K };

    /// Refuses to open a tree of `n` jobs with this line where it has to.
    fn check(&self, jobs: &[Job<K>], n: usize, line: &[u32]) -> Result<(), Refusal>
        ensures { Sound K.Amount.width K.Amount.reading jobs.now n → Line n (par_of jobs.now n) line.now → Judged (acts.refuses self.now jobs.now n line.now) (λ _. ⊤) result };

    /// The job to start next, or none.
    fn name(&self, hall: &Hall<K>, jobs: &[Job<K>]) -> Option<usize>
        ensures { Reached K.Amount.width K.Amount.reading acts self.now hall.now jobs.now → result ≡ acts.names self.now hall.now jobs.now };

    /// The board is open, and every job waits.
    fn opening(&mut self, hall: &Hall<K>, jobs: &mut [Job<K>], line: &[u32])
        ensures told { (xs : List (Job K)) → GrantedOpening K.Amount.width K.Amount.reading acts self.old xs line.now hall.now jobs.old → acts.opened self.old hall.now jobs.old line.now self.new jobs.new }
        ensures kept { Alike hall.now.jobs jobs.old jobs.new };

    /// The job runs now.
    fn started(&mut self, hall: &Hall<K>, jobs: &mut [Job<K>], job: usize)
        ensures told { Starting K.Amount.width K.Amount.reading acts self.old hall.now jobs.old job → acts.started self.old hall.now jobs.old job self.new jobs.new }
        ensures kept { Alike hall.now.jobs jobs.old jobs.new };

    /// The job is done now.
    fn reported(&mut self, hall: &Hall<K>, jobs: &mut [Job<K>], job: usize)
        ensures told { Reporting K.Amount.width K.Amount.reading acts self.old hall.now jobs.old job → acts.reported self.old hall.now jobs.old job self.new jobs.new }
        ensures kept { Alike hall.now.jobs jobs.old jobs.new };

    ghost listed: { Listed acts };

    ghost safe: { Safe K.Amount.width K.Amount.reading acts };

    ghost willing: { Willing K.Amount.width K.Amount.reading acts };
}
