//! The texts of the report on evaluations: types, constants, errors, and the lines for a goal, which is a
//! definition that was evaluated as a constant.
#![tactic(auto)]

mod consts;
mod faults;
mod goals;
mod ids;
mod memory;
mod names;
mod texts;
mod ty;

pub use goals::goal_text;
