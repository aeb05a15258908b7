//! The graph that lowering builds: blocks, locals, and what is open around the code that is added. Its calls add to it, and
//! none reads a typed body.
#![tactic(auto)]

mod graph;

pub use graph::{DropScopeToken, Graph, Held, LoopBlocks, Marked, Temps};
