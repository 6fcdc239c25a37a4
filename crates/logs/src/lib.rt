//! The calls of a board, their answers, and the laws that a log of them keeps.
#![tactic(auto)]

mod call;

pub use call::{Answer, Call, Sight, Tally};
