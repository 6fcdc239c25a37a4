ghost use Rattle.std.specs.Prelude.{◌≡◌, ℕ, List, IfErr, Err, OnErr};
ghost use Rattle.refusals.specs.declared.Refusal.TheVariants.{BenchUnknown, JobUnknown};
ghost use Rattle.trees.specs.Sums.{In};
ghost use Rattle.logs.specs.declared.call.Call.TheVariants.{Start, Report, Ask};
ghost use Rattle.logs.specs.declared.call.Answer.TheVariants.{Started, Done as Ended, Told};
ghost use Rattle.jobs.specs.declared.Job.{Job};
ghost use Rattle.logs.specs.Stands.{Opened};
ghost use Rattle.logs.specs.Logs.{Event, Tallied};
ghost use Rattle.boards.specs.Course.{Led, Continues, Still, tally_of, answered};
ghost use Rattle.boards.specs.Listed.{StartListed, ReportListed, AskListed};

use super::board::Board;
use super::held::{held_with, held_without, place_of, restate};
use amounts::Amount;
use jobs::{Job, State};
use logs::{Answer, Call, Sight, Tally};
use refusals::Refusal;
use rules::Rule;

impl<K: Amount, R: Rule<K>> Board<K, R> {
    /// Gives the bench the job that the rule names.
    pub fn start(&mut self, bench: usize, jobs: &mut [Job<K>]) -> Result<usize, Refusal>
        ensures outside { (In self.old.hall.benches bench → ⊥) → result ≡ Err BenchUnknown }
        ensures listed { IfErr result (StartListed bench) }
        ensures still { OnErr result ((self.new ≡ self.old) × (jobs.new ≡ jobs.old)) }
        ensures follows { Continues K.Amount.width K.Amount.reading R.Rule.acts self.old jobs.old (Start bench) (answered Started result) self.new jobs.new }
    {
        let place = place_of(bench, self.hall.benches)?;
        let None = self.hall.table[place] else {
            return Err(Refusal::BenchBusy { bench });
        };
        if self.hall.starts >= self.hall.jobs {
            return Err(Refusal::AllStarted { bench });
        }
        let Some(job) = self.rule.name(&self.hall, jobs) else {
            return Err(Refusal::NoneNamed { bench });
        };
        let Some(held) = held_with(&self.hall.held, jobs, job) else {
            return Err(Refusal::Altered { bench });
        };
        restate(jobs, job, State::Running(bench as u32));
        let seat = &mut self.hall.table[place];
        *seat = Some(job as u32);
        self.hall.held = held;
        self.hall.starts += 1;
        self.rule.started(&self.hall, jobs, job);
        Ok(job)
    }

    /// Takes the bench's job for done.
    pub fn report(&mut self, bench: usize, jobs: &mut [Job<K>]) -> Result<usize, Refusal>
        ensures outside { (In self.old.hall.benches bench → ⊥) → result ≡ Err BenchUnknown }
        ensures listed { IfErr result (ReportListed bench) }
        ensures still { OnErr result ((self.new ≡ self.old) × (jobs.new ≡ jobs.old)) }
        ensures follows { Continues K.Amount.width K.Amount.reading R.Rule.acts self.old jobs.old (Report bench) (answered Ended result) self.new jobs.new }
    {
        let place = place_of(bench, self.hall.benches)?;
        let seated = self.hall.table[place];
        let Some(number) = seated else {
            return Err(Refusal::BenchIdle { bench });
        };
        let job = number as usize;
        let Some(held) = held_without(&self.hall.held, jobs, job, bench) else {
            return Err(Refusal::Altered { bench });
        };
        restate(jobs, job, State::Done);
        let seat = &mut self.hall.table[place];
        *seat = None;
        self.hall.held = held;
        // never more reports than jobs, so nothing saturates
        self.hall.reports = self.hall.reports.saturating_add(1);
        self.rule.reported(&self.hall, jobs, job);
        Ok(job)
    }

    /// Tells how a job and the hall stand.
    pub fn question(&self, job: usize, jobs: &[Job<K>]) -> Result<Sight<K>, Refusal>
        ensures outside { (In self.now.hall.jobs job → ⊥) → result ≡ Err JobUnknown }
        ensures listed { IfErr result AskListed }
        ensures follows { Continues K.Amount.width K.Amount.reading R.Rule.acts self.now jobs.now (Ask job) (answered Told result) self.now jobs.now }
    {
        if job == 0 || job > self.hall.jobs {
            return Err(Refusal::JobUnknown);
        }
        let Some(record) = jobs.get(job) else {
            return Err(Refusal::Altered { bench: 0 });
        };
        Ok(Sight {
            state: record.state,
            held: self.hall.held,
            tally: self.tally(),
        })
    }

    /// Tells what came of all calls since the opening.
    pub fn tally(&self) -> Tally
        ensures counts { result ≡ tally_of self.now.hall }
        ensures tallied { (o : Opened) (l : List (Event K)) (js : List (Job K)) → Led K.Amount.width K.Amount.reading R.Rule.acts o l self.now js → Tallied o l result }
    {
        Tally {
            starts: self.hall.starts,
            reports: self.hall.reports,
            left: self.hall.jobs.saturating_sub(self.hall.reports),
        }
    }

    /// Carries out any of the three.
    pub fn call(&mut self, call: Call, jobs: &mut [Job<K>]) -> Result<Answer<K>, Refusal>
        ensures still { Still result ((self.new ≡ self.old) × (jobs.new ≡ jobs.old)) }
        ensures follows { Continues K.Amount.width K.Amount.reading R.Rule.acts self.old jobs.old call result self.new jobs.new }
    {
        Ok(match call {
            Call::Start(bench) => Answer::Started(self.start(bench, jobs)?),
            Call::Report(bench) => Answer::Done(self.report(bench, jobs)?),
            Call::Ask(job) => Answer::Told(self.question(job, jobs)?),
        })
    }
}
