ghost use Rattle.std.specs.Prelude.{◌≡◌, ℕ, List};
ghost use Rattle.logs.specs.Stands.{Opened};
ghost use Rattle.logs.specs.Logs.{Event};
ghost use Rattle.boards.specs.Course.{Led};
ghost use Rattle.shifts.specs.Shifts.{ServedBy, ShiftTold, CallsTold};

use super::desk::Desk;
use amounts::Amount;
use boards::{Board, Setup};
use jobs::Job;
use logs::{Answer, Call, Tally};
use refusals::Refusal;
use rules::Rule;
use std::alloc::{AllocError, Global};

/// Carries out the desk's calls until it has no more.
fn serve<K: Amount, R: Rule<K>, D: Desk<K>>(
    board: &mut Board<K, R>,
    jobs: &mut [Job<K>],
    desk: &mut D,
) -> Result<(), D::Fault>
    ensures { (o : Opened) (l : List (Event K)) → Led K.Amount.width K.Amount.reading R.Rule.acts o l board.old jobs.old → ServedBy K.Amount.width K.Amount.reading R.Rule.acts o l (D.Desk.journal desk.old) (D.Desk.journal desk.new) board.new jobs.new result }
{
    // nothing says that a desk ends, so its calls are counted
    for _ in 0..u64::MAX {
        let Some(call) = desk.next_call()? else {
            return Ok(());
        };
        let answer = board.call(call, jobs);
        desk.take(call, &answer)?;
    }
    Ok(())
}

/// Opens a board under the rule and carries out the desk's calls.
pub fn run_shift<K: Amount, R: Rule<K> + Drop, D: Desk<K>>(
    rule: R,
    jobs: &mut [Job<K>],
    setup: &Setup<K>,
    desk: &mut D,
) -> Result<Result<Tally, Refusal>, D::Fault>
    ensures { ShiftTold K.Amount.width K.Amount.reading R.Rule.acts rule jobs.old setup.now jobs.new (D.Desk.journal desk.old) (D.Desk.journal desk.new) result }
{
    let mut board = Board::new(rule);
    if let Err(refusal) = board.open(jobs, setup) {
        return Ok(Err(refusal));
    }
    serve(&mut board, jobs, desk)?;
    Ok(Ok(board.tally()))
}

/// Opens a board under the rule and carries out the calls of a list. An answer for each.
pub fn run_calls<K: Amount, R: Rule<K> + Drop>(
    heap: Global,
    rule: R,
    jobs: &mut [Job<K>],
    setup: &Setup<K>,
    calls: &[Call],
) -> Result<Result<Vec<Result<Answer<K>, Refusal>>, Refusal>, AllocError>
    ensures { CallsTold K.Amount.width K.Amount.reading R.Rule.acts rule jobs.old setup.now jobs.new calls.now result }
{
    let mut board = Board::new(rule);
    if let Err(refusal) = board.open(jobs, setup) {
        return Ok(Err(refusal));
    }
    let mut answers = Vec::new(heap);
    for call in calls {
        answers.push(board.call(*call, jobs))?;
    }
    Ok(Ok(answers))
}
