//! A body's code as rows: for each block the statements that do something, and how it ends, with all that the body and the
//! layouts of a world say of their places and operands read off once, so that a run needs no look at types, layouts and constants. What has no
//! row of its own is left to the body. A body that can be called stands beside the sizes of its cells.
#![tactic(auto)]

mod arrays;
mod bounds;
mod building;
mod callees;
mod cell_sizes;
mod code;
mod layouts;
mod operands;
mod places;
mod row;
mod spots;
mod steps;

pub use arrays::Numbers;
pub use bounds::{assigns_out, is_out_of_bounds, operand_out, some_out};
pub use callees::{Callee, callee_of, ready};
pub use cell_sizes::sizes;
pub use code::Code;
pub use layouts::struct_layout;
pub use operands::{constant_bytes, operand_kind};
pub use places::{cell_of, place_cell, place_type};
pub use row::{Action, BlockRows, Row, Short, Source, Way};
pub use spots::{Element, Spot, cell_of_element, part_of_local};
pub use steps::{Reach, Step};
