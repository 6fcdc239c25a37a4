//! Taking a tree of job records in: the checks in their order, and the chains of children.
#![tactic(auto)]

mod bounds;
mod chain;
mod tree;

pub use tree::{parents_of, take_in};
