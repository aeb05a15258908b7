//! The middle representation: bodies as graphs of basic blocks over typed locals, the projections of their places, the errors of
//! lowering and running them, and, in `specs/`, what a run of a body means.
#![tactic(auto)]

// Drops are written by hand: derived ones would be proved anew in each crate that drops such a value.

mod address;
mod answers;
mod body;
mod closed;
mod copies;
mod errors;
mod ids;
mod interner;
mod mem_fault;
mod operand;
mod projected_ty;
mod projection;
mod projection_store;
mod sizes;
mod span;
mod statement;
mod switch;

pub use address::{Address, CellSize, Interval};
pub use answers::{Answer, Answers, Query};
pub use body::{BasicBlock, Local, MirBody, Terminator, TerminatorKind};
pub use errors::{
    ConstEvalError, LayoutError, MirEvalError, MirLowerError, TrailEntry, layout_error_of,
};
pub use ids::{BasicBlockId, LocalId};
pub use interner::Interner;
pub use mem_fault::MemFault;
pub use numbers::Operator as BinOp;
pub use operand::{AggregateKind, CastKind, Operand, OperandKind, Place, Rvalue, UnOp};
pub use projected_ty::{struct_field, tuple_part};
pub use projection::{PlaceElem, ProjectionElem, ProjectionId};
pub use projection_store::ProjectionStore;
pub use sizes::fixed_size;
pub use span::MirSpan;
pub use statement::{Statement, StatementKind};
pub use switch::{SwitchIter, SwitchTargets};
