//! The machine: it runs a lowered body, and the functions that this calls, over any memory that keeps the laws of one, block by
//! block, and gives the end that the meaning of the blocks has. It stops where it needs a body that it wasn't told.
#![tactic(auto)]

mod aggregates;
mod blocks;
mod callees;
mod calls;
mod cells;
mod evaluator;
mod faults;
mod frames;
mod outcomes;
mod output;
mod places;
mod rows;
mod runs;
mod steps;
mod waiting;

pub use evaluator::{Evaluator, Turned};
pub use output::MirOutput;
pub use world::Limits;
