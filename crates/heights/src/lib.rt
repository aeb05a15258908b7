//! How deep the parts of values are nested, by their types.
#![tactic(auto)]

mod heights;
mod parts;

pub use heights::is_within;
