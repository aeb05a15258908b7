//! The tests of layouts: they follow the rules of all 64-bit targets, and their tags
//! fit their enums.
#![tactic(auto)]

mod arrays;
mod fields;
mod layouts;
mod places;
mod sizes;
mod tags;

pub use layouts::first_wrong_layout;
pub use tags::is_tag_right;
