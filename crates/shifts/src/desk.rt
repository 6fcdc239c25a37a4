ghost use Rattle.std.specs.Prelude.{◌≡◌, List};
ghost use Rattle.logs.specs.Logs.{Event, event};
ghost use Rattle.shifts.specs.Journals.{Noted};

use logs::{Answer, Call};
use refusals::Refusal;

/// Hands in calls one at a time and takes their answers.
pub trait Desk<K> {
    /// What can go wrong at the desk.
    type Fault;

    /// The calls that the desk has taken answers to, with these answers, in their order.
    ghost journal: { Self → List (Event K) };

    /// The next call; none at the end.
    fn next_call(&mut self) -> Result<Option<Call>, Self::Fault>
        ensures { journal self.new ≡ journal self.old };

    /// Takes the answer to a call.
    fn take(&mut self, call: Call, answer: &Result<Answer<K>, Refusal>) -> Result<(), Self::Fault>
        ensures { Noted (journal self.old) (journal self.new) (event call answer.now) result };
}
