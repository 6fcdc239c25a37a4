//! Lines of a tree of jobs: the check of one, the plain one, and whether subtrees stand together.
#![tactic(auto)]

mod apart;
mod check;
mod plain;

pub use apart::lowest_apart;
pub use check::{places_in, positions};
pub use plain::{one_plain_line, plain_in, plain_line};
