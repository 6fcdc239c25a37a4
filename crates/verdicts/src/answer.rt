ghost use Rattle.std.specs.Prelude.{◌≡◌, IfOk, Some, string_bytes};
ghost use Rattle.verdicts.specs.Lines.{checked, line_of};

use super::judge::Fit;
use amounts::Places;
use refusals::Refusal;
use std::alloc::{AllocError, Global};
use std::fmt;

/// What is told of a run that the hall can carry.
impl fmt::Display for Fit<Places> {
    ghost output = { λ f. Some (checked f) };

    fn fmt<W: fmt::Write>(&self, f: &mut fmt::Formatter<W>) -> fmt::Result {
        let (jobs, peak, floor) = (self.jobs, self.peak, self.floor);
        write!(f, "checked {jobs} jobs: peak {peak} fits floor {floor}")
    }
}

/// The line that tells the answer, in places.
pub fn answer_line(
    heap: Global,
    answer: &Result<Fit<Places>, Refusal>,
) -> Result<String, AllocError>
    ensures { IfOk result (λ s. string_bytes s ≡ line_of answer.now) }
{
    match answer {
        Ok(fit) => format!(in heap; "{fit}\n"),
        Err(refusal) => format!(in heap; "{refusal}\n"),
    }
}
