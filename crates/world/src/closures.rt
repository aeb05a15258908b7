//! Closures and what they capture.

use crate::{BindingId, DefWithBodyId, ExprId, FieldId, List, NoMemory, TryClone, Ty};
use std::alloc::Global;

/// A closure.
#[derive(PartialEq, Eq, PartialOrd, Ord, Hash)]
pub struct ClosureRow {
    /// The item whose body it stands in.
    pub owner: DefWithBodyId,
    /// The closure expression in that body.
    pub expr: ExprId,
    pub kind: FnTrait,
    /// The types of its parameters.
    pub params: List<Ty>,
    pub captures: List<Capture>,
}

impl Drop for ClosureRow {
    fn drop(self) {
        let ClosureRow {
            owner: _owner,
            expr: _expr,
            kind: _kind,
            params: _params,
            captures: _captures,
        } = self;
    }
}

/// The trait by which a closure is called at most.
#[derive(Clone, Copy, PartialEq, Eq, PartialOrd, Ord, Hash)]
pub enum FnTrait {
    Fn,
    FnMut,
    FnOnce,
}

/// A place that a closure captures.
#[derive(PartialEq, Eq, PartialOrd, Ord, Hash)]
pub struct Capture {
    pub local: BindingId,
    pub projections: List<HirPlaceProjection>,
    pub kind: CaptureKind,
    /// The type of the captured field: a reference where it is captured by one.
    pub ty: Ty,
    /// The expression that makes it captured.
    pub span: ExprId,
}

impl Drop for Capture {
    fn drop(self) {
        let Capture {
            local: _local,
            projections: _projections,
            kind: _kind,
            ty: _ty,
            span: _span,
        } = self;
    }
}

/// A step from a place to a part of it.
#[derive(Clone, Copy, PartialEq, Eq, PartialOrd, Ord, Hash)]
pub enum HirPlaceProjection {
    Deref,
    Field(FieldId),
    TupleField(u32),
}

/// How a place is captured.
#[derive(Clone, Copy, PartialEq, Eq, PartialOrd, Ord, Hash)]
pub enum CaptureKind {
    ByRef(BorrowKind),
    ByValue,
}

/// A borrow of a place.
#[derive(Clone, Copy, PartialEq, Eq, PartialOrd, Ord, Hash)]
pub enum BorrowKind {
    Shared,
    Shallow,
    Mut { kind: MutBorrowKind },
}

/// A borrow of a place that may change it.
#[derive(Clone, Copy, PartialEq, Eq, PartialOrd, Ord, Hash)]
pub enum MutBorrowKind {
    ClosureCapture,
    Default,
    TwoPhasedBorrow,
}

impl TryClone for ClosureRow {
    fn try_clone(&self, alloc: Global) -> Result<ClosureRow, NoMemory> {
        Ok(ClosureRow {
            owner: self.owner,
            expr: self.expr,
            kind: self.kind,
            params: self.params.try_clone(alloc)?,
            captures: self.captures.try_clone(alloc)?,
        })
    }
}

impl TryClone for FnTrait {
    fn try_clone(&self, _alloc: Global) -> Result<FnTrait, NoMemory> {
        Ok(*self)
    }
}

impl TryClone for Capture {
    fn try_clone(&self, alloc: Global) -> Result<Capture, NoMemory> {
        Ok(Capture {
            local: self.local,
            projections: self.projections.try_clone(alloc)?,
            kind: self.kind,
            ty: self.ty.try_clone(alloc)?,
            span: self.span,
        })
    }
}

impl TryClone for HirPlaceProjection {
    fn try_clone(&self, _alloc: Global) -> Result<HirPlaceProjection, NoMemory> {
        Ok(*self)
    }
}

impl TryClone for CaptureKind {
    fn try_clone(&self, _alloc: Global) -> Result<CaptureKind, NoMemory> {
        Ok(*self)
    }
}

impl TryClone for BorrowKind {
    fn try_clone(&self, _alloc: Global) -> Result<BorrowKind, NoMemory> {
        Ok(*self)
    }
}

impl TryClone for MutBorrowKind {
    fn try_clone(&self, _alloc: Global) -> Result<MutBorrowKind, NoMemory> {
        Ok(*self)
    }
}
