ghost use Rattle.std.specs.Prelude.{Some};
ghost use Rattle.jobs.specs.Standing.{state_of};

use super::State;
use std::fmt;

/// How the job stands, and the bench that runs it: 0 unless one does.
impl fmt::Display for State {
    ghost output = { λ s. Some (state_of s) };

    fn fmt<W: fmt::Write>(&self, f: &mut fmt::Formatter<W>) -> fmt::Result {
        match self {
            State::Waiting => f.write_str("waiting 0"),
            State::Running(bench) => write!(f, "running {bench}"),
            State::Done => f.write_str("done 0"),
        }
    }
}
