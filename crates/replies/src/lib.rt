//! A board's calls and answers as lines of text.
#![tactic(auto)]

mod reply;
mod words;

pub use reply::{end_line, reply_line};
pub use words::call_of;
