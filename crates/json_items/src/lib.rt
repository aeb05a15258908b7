//! Reads rows of items, resolved impl items, layouts and closures, and inference results, from JSON trees.
#![tactic(auto)]

mod adjusts;
mod closures;
mod impls;
mod inference;
mod items;
mod layouts;
mod readers;

pub use readers::JsonItems;
