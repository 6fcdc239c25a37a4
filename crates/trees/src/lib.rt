//! Trees of jobs by their parents alone, on plain numbers.
#![tactic(auto)]

mod chains;
mod parents;
mod reach;

pub use chains::{Chains, chains_of};
pub use parents::{Parents, check_parents};
