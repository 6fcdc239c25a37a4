ghost use Rattle.std.specs.Prelude.{◌≡◌, IfOk, string_bytes};
ghost use Rattle.replies.specs.Replies.{number_of, reply, end_reply};

use amounts::Places;
use logs::{Answer, Call, Sight, Tally};
use refusals::Refusal;
use std::alloc::{AllocError, Global};

/// The bench or the job that the call names.
fn named_by(call: Call) -> usize
    ensures { result ≡ number_of call }
{
    match call {
        Call::Start(bench) | Call::Report(bench) => bench,
        Call::Ask(job) => job,
    }
}

/// The line that tells the answer to a call, in places.
pub fn reply_line(
    heap: Global,
    call: Call,
    answer: &Result<Answer<Places>, Refusal>,
) -> Result<String, AllocError>
    ensures { IfOk result (λ s. string_bytes s ≡ reply call answer.now) }
{
    let named = named_by(call);
    match answer {
        Ok(Answer::Started(job)) => format!(in heap; "started {job} {named}\n"),
        Ok(Answer::Done(job)) => format!(in heap; "done {job} {named}\n"),
        Ok(Answer::Told(sight)) => {
            let Sight { state, held, tally } = *sight;
            format!(in heap; "state {named} {state} {held} {tally}\n")
        }
        Err(refusal) => format!(in heap; "{refusal}\n"),
    }
}

/// The line at the end of the calls: how many starts and reports were granted, and how many jobs
/// are not done.
pub fn end_line(heap: Global, tally: Tally) -> Result<String, AllocError>
    ensures { IfOk result (λ s. string_bytes s ≡ end_reply tally) }
{
    format!(in heap; "end {tally}\n")
}
