//! Rules of admission: what a rule sees of a board, what it is told, and what a lawful one owes.
#![tactic(auto)]

mod hall;
mod kin;
mod rule;

pub use hall::{BENCHES, Hall};
pub use kin::{freed, startable};
pub use rule::Rule;
