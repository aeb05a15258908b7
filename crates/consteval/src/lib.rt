//! Constants: each definition of a checked world is lowered, run and answered, and what is finished is
//! kept.
#![tactic(auto)]

mod evaluated;
mod evaluations;
mod kept;
mod lowering;
mod running;

pub use evaluated::Evaluated;
pub use evaluations::Evaluations;
