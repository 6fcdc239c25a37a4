//! The answer to a text: whether the hall can carry the run, and the line that says so.
#![tactic(auto)]

mod answer;
mod judge;

pub use answer::answer_line;
pub use judge::{Fit, check_text};
