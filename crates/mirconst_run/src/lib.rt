//! A run of the program: it reads a world and goals, which are definitions to be evaluated as constants,
//! checks them, evaluates the goals and writes the report. This crate has the calls of the whole program.
#![tactic(auto)]

mod answers;
mod reports;
mod runs;
mod writing;

pub use mirconst_input::{Status, goals_fit};
pub use reports::report;
pub use runs::run;
pub use world_json::{Goal, NotAWorld, read_world};
