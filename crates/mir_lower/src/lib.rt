//! Lowering: a typed body becomes a graph of basic blocks that does what the body means.
#![tactic(auto)]

mod body;
mod branch;
mod call;
mod first;
mod jump;
mod leave;
mod locals;
mod lower;
mod params;
mod simple;
mod update;

pub use body::lower_to_mir;
