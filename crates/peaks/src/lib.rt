//! What stands in the hall while a line is run job by job, for any kind of amount.
#![tactic(auto)]

mod add;
mod hall;
mod inputs;
mod run;
mod survey;
mod walk;

pub use hall::check_hall;
pub use run::{first_over, peak, standing};
pub use survey::{Survey, survey_of};
