//! The open board: opening, starts, reports and questions.
#![tactic(auto)]

mod board;
mod calls;
mod held;
mod lay;
mod opening;

pub use board::Board;
pub use opening::Setup;
