//! The desk at a terminal: calls are typed, one a line, and answered.
#![tactic(auto)]

mod terminal;

pub use terminal::{Entry, Terminal};
