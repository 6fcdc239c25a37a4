//! The line rule: jobs are booked in the order of the line while the floor has room for them.
#![tactic(auto)]

mod rule;

pub use rule::LineRule;
