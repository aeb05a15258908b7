//! Operators on two operands that are numbers of one integer type or truth values, shifts and casts, computed in registers: what the
//! table of operators answers, in less time.
#![tactic(auto)]

mod made;
mod operators;
mod shifts;
mod words;

pub use made::{Made, byte_of, bytes1, bytes2, bytes4, bytes8, bytes16};
pub use operators::{made_of, word_made_of};
pub use shifts::converted_of;
