ghost use Rattle.std.specs.Prelude.{◌≡◌, ℕ, ◌<◌, ◌≤◌, length};
ghost use Rattle.refusals.specs.Judged.{Judged};
ghost use Rattle.trees.specs.Found.{Lowest};
ghost use Rattle.peaks.specs.Faults.{RunFault};
ghost use Rattle.peaks.specs.Stood.{Standing, Peak as PeakOf, Over};

use super::walk::Walk;
use amounts::Amount;
use jobs::Job;
use refusals::Refusal;

/// What stands at a position of the line of the jobs 1 to `n`; none where there is no such position.
pub fn standing<K: Amount>(
    jobs: &[Job<K>],
    n: usize,
    line: &[u32],
    position: usize,
) -> Result<Option<K>, Refusal>
    ensures { Judged (RunFault K.Amount.width K.Amount.reading jobs.now n line.now) (Standing K.Amount.reading jobs.now n line.now position) result }
{
    let walk = Walk::of(jobs, n, line)?;
    if position == 0 || position > n {
        return Ok(None);
    }
    for (p, stands) in walk {
        if p == position {
            return Ok(Some(stands));
        }
    }
    Ok(None)
}

/// The peak of the line of the jobs 1 to `n`: the greatest of what stands, axis by axis.
pub fn peak<K: Amount>(jobs: &[Job<K>], n: usize, line: &[u32]) -> Result<K, Refusal>
    ensures { Judged (RunFault K.Amount.width K.Amount.reading jobs.now n line.now) (PeakOf K.Amount.reading jobs.now n line.now) result }
{
    let mut most = K::zero();
    for (_, stands) in Walk::of(jobs, n, line)? {
        most = most.greater(&stands);
    }
    Ok(most)
}

/// The first position of the line of the jobs 1 to `n` at which what stands does not fit the floor.
pub fn first_over<K: Amount>(
    jobs: &[Job<K>],
    n: usize,
    line: &[u32],
    floor: &K,
) -> Result<Option<usize>, Refusal>
    ensures { Judged (RunFault K.Amount.width K.Amount.reading jobs.now n line.now) (Lowest n (Over K.Amount.reading jobs.now n line.now floor.now)) result }
{
    for (p, stands) in Walk::of(jobs, n, line)? {
        if !stands.fits(floor) {
            return Ok(Some(p));
        }
    }
    Ok(None)
}
