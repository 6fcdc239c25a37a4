//! Whether a hall can carry a run: the whole check of a tree with its benches and its floor.
#![tactic(auto)]

mod carry;

pub use carry::{carried, plain_of};
