//! Types at generic arguments.
#![tactic(auto)]

mod arguments;
mod behind;
mod comparing;
mod instances;
mod keys;
mod no_instance;
mod numbers;
mod opening;
mod places;
mod ready;
mod unopened;
mod variants;

pub use instances::{args_instance, ty_instance};
pub use no_instance::NoInstance;
pub use places::instance_place;
pub use ready::ready_instance;
