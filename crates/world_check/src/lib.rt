//! The check of a world: ids are in range, bodies are trees, jumps name enclosing labels, normalized types
//! and resolved impl items have no alias and no generic parameter in them, layouts follow the rules of all
//! targets, tags fit their enums, and rows agree with one another. A function `wrong_NOUN` returns the first
//! place that is not as asked, `wrong_NOUN_in` the first in one body, and `wrong_NOUN_among` the first of a
//! slice.
#![tactic(auto)]

mod agreement;
mod callers;
mod checked_world;
mod fault;
mod keyed;
mod named;
mod place;
mod ranges;
mod rows;
mod tables;
mod trees;
mod typed_body;
mod valid;

pub use checked_world::CheckedWorld;
pub use fault::{CheckFault, CheckRow, InvalidWorld};
pub use place::{NamedFunction, NodeKind, Place, TableName};
pub use rows::check;
pub use typed_body::check_body;
