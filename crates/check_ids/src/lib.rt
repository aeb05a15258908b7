//! Whether the ids of a typed body are in range.
#![tactic(auto)]

mod entries;
mod findings;
mod inferred;
mod nodes;
mod part;
mod parts;

pub use part::BodyPart;
pub use parts::wrong_part;
