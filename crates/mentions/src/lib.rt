//! What types, generic arguments and constants mention, and whether all of it passes a test.
#![tactic(auto)]

mod mention;
mod params;
mod test;
mod walk;

pub use mention::Mention;
pub use params::holds_param;
pub use test::MentionTest;
pub use walk::{all_in_args, all_in_ty};
