//! The input of a run: the command line, the bytes that are read, and the checked world and the goals
//! (definitions to be evaluated as constants) in them, or the status of an input that is refused.
#![tactic(auto)]

mod input;
mod reading;
mod status;
mod words;

pub use input::{checked_input, goals_fit};
pub use reading::read_input;
pub use status::Status;
pub use words::is_command;
