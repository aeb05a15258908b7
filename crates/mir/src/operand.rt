//! What statements read and compute.

use crate::{BinOp, LocalId, MirSpan, ProjectionId};
use world::{Const, GenericArgs, List, Ty, VariantId};

/// Where a value lies: a local, or a part of it, or what it leads to, by the projection. The store of the body has the projection.
#[derive(Clone, Copy, PartialEq, Eq, Hash)]
pub struct Place {
    pub local: LocalId,
    pub projection: ProjectionId,
}

impl From<LocalId> for Place {
    ghost use Rattle.std.specs.Prelude.{◌≡◌};
    ghost use Rattle.mir.specs.Projections.{empty_id};

    ghost from_gives = { λ local place. place ≡ record { local = local; projection = empty_id } };

    fn from(local: LocalId) -> Place {
        Place {
            local,
            projection: ProjectionId::EMPTY,
        }
    }
}

/// What an operation reads.
#[derive(PartialEq, Eq)]
pub struct Operand {
    pub kind: OperandKind,
    pub span: Option<MirSpan>,
}

impl Drop for Operand {
    fn drop(self) {
        let Operand {
            kind: _kind,
            span: _span,
        } = self;
    }
}

/// A place, whose bytes are read when the operation runs, or a constant.
#[derive(PartialEq, Eq, Drop)]
pub enum OperandKind {
    Copy(Place),
    Constant { konst: Const, ty: Ty },
}

/// An operator on one operand.
#[derive(Clone, Copy, PartialEq, Eq, PartialOrd, Ord, Hash)]
pub enum UnOp {
    Not,
    Neg,
}

/// What a cast is between.
#[derive(Clone, Copy, PartialEq, Eq, PartialOrd, Ord, Hash)]
pub enum CastKind {
    /// Integers, `bool` and `char`, which all are numbers.
    IntToInt,
}

/// What an aggregate is.
#[derive(PartialEq, Eq)]
pub enum AggregateKind {
    /// An array, by the type of its elements. They lie one behind another.
    Array(Ty),
    /// A tuple, by its own type, whose layout says where the parts lie.
    Tuple(Ty),
    /// A struct, with its generic arguments, by the layout of whose type the fields lie.
    Adt(VariantId, GenericArgs),
}

impl Drop for AggregateKind {
    fn drop(self) {
        match self {
            AggregateKind::Array(_ty) => {}
            AggregateKind::Tuple(_ty) => {}
            AggregateKind::Adt(_id, _args) => {}
        }
    }
}

/// What an assignment computes.
#[derive(PartialEq, Eq)]
pub enum Rvalue {
    Use(Operand),
    /// A value as often as a constant says, one behind another.
    Repeat(Operand, Const),
    Cast(CastKind, Operand, Ty),
    CheckedBinaryOp(BinOp, Operand, Operand),
    UnaryOp(UnOp, Operand),
    /// A value that consists of others.
    Aggregate(AggregateKind, List<Operand>),
}

impl Drop for Rvalue {
    fn drop(self) {
        match self {
            Rvalue::Use(_operand) => {}
            Rvalue::Repeat(_operand, _len) => {}
            Rvalue::Cast(_kind, _operand, _ty) => {}
            Rvalue::CheckedBinaryOp(_op, _left, _right) => {}
            Rvalue::UnaryOp(_op, _operand) => {}
            Rvalue::Aggregate(_kind, _operands) => {}
        }
    }
}

impl From<Operand> for Rvalue {
    ghost use Rattle.std.specs.Prelude.{◌≡◌};
    ghost use Rattle.mir.specs.declared.operand.Rvalue.TheVariants.{Use};

    ghost from_gives = { λ operand rvalue. rvalue ≡ Use operand };

    fn from(operand: Operand) -> Rvalue {
        Rvalue::Use(operand)
    }
}
