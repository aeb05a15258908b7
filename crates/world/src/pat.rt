//! Patterns.

use crate::{BindingId, ExprId, List, NoMemory, PatId, Text, TryClone};
use std::alloc::Global;

/// A pattern.
#[derive(PartialEq, Eq, PartialOrd, Ord, Hash)]
pub enum Pat {
    Missing,
    Wild,
    Tuple {
        args: List<PatId>,
        /// How many of the parts stand before the `..`.
        ellipsis: Option<u32>,
    },
    Or(List<PatId>),
    Record {
        args: List<RecordFieldPat>,
    },
    Range {
        start: Option<ExprId>,
        end: Option<ExprId>,
        range_type: RangeOp,
    },
    Slice {
        prefix: List<PatId>,
        slice: Option<PatId>,
        suffix: List<PatId>,
    },
    Path(Text),
    Lit(ExprId),
    Bind {
        id: BindingId,
        subpat: Option<PatId>,
    },
    TupleStruct {
        args: List<PatId>,
        /// How many of the parts stand before the `..`.
        ellipsis: Option<u32>,
    },
    Ref {
        pat: PatId,
    },
    Expr(ExprId),
    Box(PatId),
    ConstBlock(ExprId),
}

impl Drop for Pat {
    fn drop(self) {
        match self {
            Pat::Tuple {
                args: _args,
                ellipsis: _ellipsis,
            } => {}
            Pat::Or(_part) => {}
            Pat::Record { args: _args } => {}
            Pat::Range {
                start: _start,
                end: _end,
                range_type: _range_type,
            } => {}
            Pat::Slice {
                prefix: _prefix,
                slice: _slice,
                suffix: _suffix,
            } => {}
            Pat::Path(_part) => {}
            Pat::Lit(_part) => {}
            Pat::Bind {
                id: _id,
                subpat: _subpat,
            } => {}
            Pat::TupleStruct {
                args: _args,
                ellipsis: _ellipsis,
            } => {}
            Pat::Ref { pat: _pat } => {}
            Pat::Expr(_part) => {}
            Pat::Box(_part) => {}
            Pat::ConstBlock(_part) => {}
            Pat::Missing | Pat::Wild => {}
        }
    }
}

/// A field of a record pattern.
#[derive(PartialEq, Eq, PartialOrd, Ord, Hash)]
pub struct RecordFieldPat {
    pub name: Text,
    pub pat: PatId,
}

impl Drop for RecordFieldPat {
    fn drop(self) {
        let RecordFieldPat {
            name: _name,
            pat: _pat,
        } = self;
    }
}

/// Whether a range holds its end.
#[derive(Clone, Copy, PartialEq, Eq, PartialOrd, Ord, Hash)]
pub enum RangeOp {
    Exclusive,
    Inclusive,
}

impl TryClone for Pat {
    fn try_clone(&self, alloc: Global) -> Result<Pat, NoMemory> {
        match self {
            Pat::Missing => Ok(Pat::Missing),
            Pat::Wild => Ok(Pat::Wild),
            Pat::Tuple { args, ellipsis } => Ok(Pat::Tuple {
                args: args.try_clone(alloc)?,
                ellipsis: *ellipsis,
            }),
            Pat::Or(pat_id) => Ok(Pat::Or(pat_id.try_clone(alloc)?)),
            Pat::Record { args } => Ok(Pat::Record {
                args: args.try_clone(alloc)?,
            }),
            Pat::Range {
                start,
                end,
                range_type,
            } => Ok(Pat::Range {
                start: *start,
                end: *end,
                range_type: *range_type,
            }),
            Pat::Slice {
                prefix,
                slice,
                suffix,
            } => Ok(Pat::Slice {
                prefix: prefix.try_clone(alloc)?,
                slice: *slice,
                suffix: suffix.try_clone(alloc)?,
            }),
            Pat::Path(text) => Ok(Pat::Path(text.try_clone(alloc)?)),
            Pat::Lit(expr_id) => Ok(Pat::Lit(*expr_id)),
            Pat::Bind { id, subpat } => Ok(Pat::Bind {
                id: *id,
                subpat: *subpat,
            }),
            Pat::TupleStruct { args, ellipsis } => Ok(Pat::TupleStruct {
                args: args.try_clone(alloc)?,
                ellipsis: *ellipsis,
            }),
            Pat::Ref { pat } => Ok(Pat::Ref { pat: *pat }),
            Pat::Expr(expr_id) => Ok(Pat::Expr(*expr_id)),
            Pat::Box(pat_id) => Ok(Pat::Box(*pat_id)),
            Pat::ConstBlock(expr_id) => Ok(Pat::ConstBlock(*expr_id)),
        }
    }
}

impl TryClone for RecordFieldPat {
    fn try_clone(&self, alloc: Global) -> Result<RecordFieldPat, NoMemory> {
        Ok(RecordFieldPat {
            name: self.name.try_clone(alloc)?,
            pat: self.pat,
        })
    }
}

impl TryClone for RangeOp {
    fn try_clone(&self, _alloc: Global) -> Result<RangeOp, NoMemory> {
        Ok(*self)
    }
}
