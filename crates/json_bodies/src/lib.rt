//! Reads bodies from trees: their expressions, patterns, statements, literals and operators.
#![tactic(auto)]

mod bodies;
mod exprs;
mod literals;
mod operators;
mod pats;
mod readers;
mod statements;

pub use readers::JsonBodies;
