//! Projections: the ways from a place to a place within it, or behind it.

use crate::LocalId;
use either::Either;
use std::alloc::Global;
use world::{FieldId, NoMemory, TryClone, TupleFieldId, Ty};

/// A list of projection elements, by its place among those that an interner keeps.
#[derive(Clone, Copy, PartialEq, Eq, PartialOrd, Ord, Hash, Debug)]
pub struct ProjectionId(pub u32);

/// One step of a projection, as rustc's documentation of `ProjectionElem` says. `V` is what an index is read from.
#[derive(PartialEq, Eq, PartialOrd, Ord, Hash, Debug)]
pub enum ProjectionElem<V: PartialEq> {
    /// What a reference, a raw pointer or a box points to.
    Deref,
    /// A field of a struct, a variant or a union, or one of a tuple.
    Field(Either<FieldId, TupleFieldId>),
    /// What a closure captured, by its place among the captures.
    ClosureField(u32),
    /// The element of an array or a slice at an index.
    Index(V),
    /// The element at `offset`, counted from the end where `from_end` is set: the last one is then at 1.
    ConstantIndex { offset: u64, from_end: bool },
    /// The elements without the first `from` and the last `to`.
    Subslice { from: u64, to: u64 },
    /// The same place, seen at another type.
    OpaqueCast(Ty),
}

/// A step of a place's projection, whose index stands in a local.
pub type PlaceElem = ProjectionElem<LocalId>;

impl<V: PartialEq + Drop> Drop for ProjectionElem<V> {
    fn drop(self) {
        match self {
            ProjectionElem::Deref => {}
            ProjectionElem::Field(_field) => {}
            ProjectionElem::ClosureField(_index) => {}
            ProjectionElem::Index(_index) => {}
            ProjectionElem::ConstantIndex {
                offset: _offset,
                from_end: _from_end,
            } => {}
            ProjectionElem::Subslice {
                from: _from,
                to: _to,
            } => {}
            ProjectionElem::OpaqueCast(_ty) => {}
        }
    }
}

impl<V: PartialEq + TryClone> TryClone for ProjectionElem<V> {
    fn try_clone(&self, alloc: Global) -> Result<ProjectionElem<V>, NoMemory> {
        match self {
            ProjectionElem::Deref => Ok(ProjectionElem::Deref),
            ProjectionElem::Field(field) => Ok(ProjectionElem::Field(*field)),
            ProjectionElem::ClosureField(index) => Ok(ProjectionElem::ClosureField(*index)),
            ProjectionElem::Index(index) => Ok(ProjectionElem::Index(index.try_clone(alloc)?)),
            ProjectionElem::ConstantIndex { offset, from_end } => {
                Ok(ProjectionElem::ConstantIndex {
                    offset: *offset,
                    from_end: *from_end,
                })
            }
            ProjectionElem::Subslice { from, to } => Ok(ProjectionElem::Subslice {
                from: *from,
                to: *to,
            }),
            ProjectionElem::OpaqueCast(ty) => Ok(ProjectionElem::OpaqueCast(ty.try_clone(alloc)?)),
        }
    }
}
