//! Reads ids, types, generic arguments and constants from JSON trees.
#![tactic(auto)]

mod ids;
mod kinds;
mod readers;
mod ty;

pub use readers::JsonTypes;
