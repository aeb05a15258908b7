//! Reads a world and goals from a JSON tree, or gives the path of the first part of it that doesn't fit.
#![tactic(auto)]

mod goal;
mod input;
mod readers;
mod tables;

pub use goal::Goal;
pub use input::read_world;
pub use json_kit::NotAWorld;
pub use readers::WorldJson;
