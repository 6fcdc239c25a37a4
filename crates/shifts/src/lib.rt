//! Whole shifts: a board is opened, and the calls of a list or of a desk are carried out.
#![tactic(auto)]

mod desk;
mod run;

pub use desk::Desk;
pub use run::{run_calls, run_shift};
