//! Expressions.

use crate::{
    BinaryOp, ExprId, LabelId, List, Literal, Mutability, NoMemory, PatId, Statement, Text,
    TryClone, UnaryOp,
};
use std::alloc::Global;

/// An expression.
#[derive(PartialEq, Eq, PartialOrd, Ord, Hash)]
pub enum Expr {
    Missing,
    Path(Text),
    If {
        condition: ExprId,
        then_branch: ExprId,
        else_branch: Option<ExprId>,
    },
    /// A `let` as a condition.
    Let {
        pat: PatId,
        expr: ExprId,
    },
    Block {
        statements: List<Statement>,
        tail: Option<ExprId>,
        label: Option<LabelId>,
    },
    Unsafe {
        statements: List<Statement>,
        tail: Option<ExprId>,
    },
    Loop {
        body: ExprId,
        label: Option<LabelId>,
    },
    Call {
        callee: ExprId,
        args: List<ExprId>,
    },
    MethodCall {
        receiver: ExprId,
        args: List<ExprId>,
        method_name: Text,
    },
    Match {
        expr: ExprId,
        arms: List<MatchArm>,
    },
    Continue {
        label: Option<LabelId>,
    },
    Break {
        expr: Option<ExprId>,
        label: Option<LabelId>,
    },
    Return {
        expr: Option<ExprId>,
    },
    RecordLit {
        path: Option<Text>,
        fields: List<RecordLitField>,
        spread: RecordSpread,
    },
    Field {
        expr: ExprId,
        name: Text,
    },
    Cast {
        expr: ExprId,
    },
    Ref {
        expr: ExprId,
        mutability: Mutability,
    },
    Box {
        expr: ExprId,
    },
    UnaryOp {
        expr: ExprId,
        op: UnaryOp,
    },
    BinaryOp {
        lhs: ExprId,
        rhs: ExprId,
        op: Option<BinaryOp>,
    },
    Assignment {
        target: PatId,
        value: ExprId,
    },
    Range {
        lhs: Option<ExprId>,
        rhs: Option<ExprId>,
    },
    Index {
        base: ExprId,
        index: ExprId,
    },
    Closure {
        args: List<PatId>,
        body: ExprId,
    },
    Tuple {
        exprs: List<ExprId>,
    },
    Array {
        elements: List<ExprId>,
    },
    /// An array of one value; its type tells how many.
    Repeat {
        initializer: ExprId,
    },
    Literal(Literal),
    Underscore,
    Become(ExprId),
    Yield(Option<ExprId>),
    Yeet(Option<ExprId>),
    Await(ExprId),
    Async(ExprId),
    Const(ExprId),
    OffsetOf,
    InlineAsm,
}

impl Drop for Expr {
    fn drop(self) {
        match self {
            Expr::Path(_part) => {}
            Expr::If {
                condition: _condition,
                then_branch: _then_branch,
                else_branch: _else_branch,
            } => {}
            Expr::Let {
                pat: _pat,
                expr: _expr,
            } => {}
            Expr::Block {
                statements: _statements,
                tail: _tail,
                label: _label,
            } => {}
            Expr::Unsafe {
                statements: _statements,
                tail: _tail,
            } => {}
            Expr::Loop {
                body: _body,
                label: _label,
            } => {}
            Expr::Call {
                callee: _callee,
                args: _args,
            } => {}
            Expr::MethodCall {
                receiver: _receiver,
                args: _args,
                method_name: _method_name,
            } => {}
            Expr::Match {
                expr: _expr,
                arms: _arms,
            } => {}
            Expr::Continue { label: _label } => {}
            Expr::Break {
                expr: _expr,
                label: _label,
            } => {}
            Expr::Return { expr: _expr } => {}
            Expr::RecordLit {
                path: _path,
                fields: _fields,
                spread: _spread,
            } => {}
            Expr::Field {
                expr: _expr,
                name: _name,
            } => {}
            Expr::Cast { expr: _expr } => {}
            Expr::Ref {
                expr: _expr,
                mutability: _mutability,
            } => {}
            Expr::Box { expr: _expr } => {}
            Expr::UnaryOp {
                expr: _expr,
                op: _op,
            } => {}
            Expr::BinaryOp {
                lhs: _lhs,
                rhs: _rhs,
                op: _op,
            } => {}
            Expr::Assignment {
                target: _target,
                value: _value,
            } => {}
            Expr::Range {
                lhs: _lhs,
                rhs: _rhs,
            } => {}
            Expr::Index {
                base: _base,
                index: _index,
            } => {}
            Expr::Closure {
                args: _args,
                body: _body,
            } => {}
            Expr::Tuple { exprs: _exprs } => {}
            Expr::Array {
                elements: _elements,
            } => {}
            Expr::Repeat {
                initializer: _initializer,
            } => {}
            Expr::Literal(_part) => {}
            Expr::Become(_part) => {}
            Expr::Yield(_part) => {}
            Expr::Yeet(_part) => {}
            Expr::Await(_part) => {}
            Expr::Async(_part) => {}
            Expr::Const(_part) => {}
            Expr::Missing | Expr::Underscore | Expr::OffsetOf | Expr::InlineAsm => {}
        }
    }
}

/// An arm of a `match`.
#[derive(Clone, Copy, PartialEq, Eq, PartialOrd, Ord, Hash)]
pub struct MatchArm {
    pub pat: PatId,
    pub guard: Option<ExprId>,
    pub expr: ExprId,
}

/// A field of a record literal.
#[derive(PartialEq, Eq, PartialOrd, Ord, Hash)]
pub struct RecordLitField {
    pub name: Text,
    pub expr: ExprId,
}

impl Drop for RecordLitField {
    fn drop(self) {
        let RecordLitField {
            name: _name,
            expr: _expr,
        } = self;
    }
}

/// Where the fields come from that a record literal doesn't name.
#[derive(Clone, Copy, PartialEq, Eq, PartialOrd, Ord, Hash)]
pub enum RecordSpread {
    Expr(ExprId),
    None,
    FieldDefaults,
}

impl TryClone for Expr {
    fn try_clone(&self, alloc: Global) -> Result<Expr, NoMemory> {
        match self {
            Expr::Missing => Ok(Expr::Missing),
            Expr::Path(text) => Ok(Expr::Path(text.try_clone(alloc)?)),
            Expr::If {
                condition,
                then_branch,
                else_branch,
            } => Ok(Expr::If {
                condition: *condition,
                then_branch: *then_branch,
                else_branch: *else_branch,
            }),
            Expr::Let { pat, expr } => Ok(Expr::Let {
                pat: *pat,
                expr: *expr,
            }),
            Expr::Block {
                statements,
                tail,
                label,
            } => Ok(Expr::Block {
                statements: statements.try_clone(alloc)?,
                tail: *tail,
                label: *label,
            }),
            Expr::Unsafe { statements, tail } => Ok(Expr::Unsafe {
                statements: statements.try_clone(alloc)?,
                tail: *tail,
            }),
            Expr::Loop { body, label } => Ok(Expr::Loop {
                body: *body,
                label: *label,
            }),
            Expr::Call { callee, args } => Ok(Expr::Call {
                callee: *callee,
                args: args.try_clone(alloc)?,
            }),
            Expr::MethodCall {
                receiver,
                args,
                method_name,
            } => Ok(Expr::MethodCall {
                receiver: *receiver,
                args: args.try_clone(alloc)?,
                method_name: method_name.try_clone(alloc)?,
            }),
            Expr::Match { expr, arms } => Ok(Expr::Match {
                expr: *expr,
                arms: arms.try_clone(alloc)?,
            }),
            Expr::Continue { label } => Ok(Expr::Continue { label: *label }),
            Expr::Break { expr, label } => Ok(Expr::Break {
                expr: *expr,
                label: *label,
            }),
            Expr::Return { expr } => Ok(Expr::Return { expr: *expr }),
            Expr::RecordLit {
                path,
                fields,
                spread,
            } => Ok(Expr::RecordLit {
                path: path.try_clone(alloc)?,
                fields: fields.try_clone(alloc)?,
                spread: *spread,
            }),
            Expr::Field { expr, name } => Ok(Expr::Field {
                expr: *expr,
                name: name.try_clone(alloc)?,
            }),
            Expr::Cast { expr } => Ok(Expr::Cast { expr: *expr }),
            Expr::Ref { expr, mutability } => Ok(Expr::Ref {
                expr: *expr,
                mutability: *mutability,
            }),
            Expr::Box { expr } => Ok(Expr::Box { expr: *expr }),
            Expr::UnaryOp { expr, op } => Ok(Expr::UnaryOp {
                expr: *expr,
                op: *op,
            }),
            Expr::BinaryOp { lhs, rhs, op } => Ok(Expr::BinaryOp {
                lhs: *lhs,
                rhs: *rhs,
                op: *op,
            }),
            Expr::Assignment { target, value } => Ok(Expr::Assignment {
                target: *target,
                value: *value,
            }),
            Expr::Range { lhs, rhs } => Ok(Expr::Range {
                lhs: *lhs,
                rhs: *rhs,
            }),
            Expr::Index { base, index } => Ok(Expr::Index {
                base: *base,
                index: *index,
            }),
            Expr::Closure { args, body } => Ok(Expr::Closure {
                args: args.try_clone(alloc)?,
                body: *body,
            }),
            Expr::Tuple { exprs } => Ok(Expr::Tuple {
                exprs: exprs.try_clone(alloc)?,
            }),
            Expr::Array { elements } => Ok(Expr::Array {
                elements: elements.try_clone(alloc)?,
            }),
            Expr::Repeat { initializer } => Ok(Expr::Repeat {
                initializer: *initializer,
            }),
            Expr::Literal(literal) => Ok(Expr::Literal(literal.try_clone(alloc)?)),
            Expr::Underscore => Ok(Expr::Underscore),
            Expr::Become(expr_id) => Ok(Expr::Become(*expr_id)),
            Expr::Yield(expr_id) => Ok(Expr::Yield(*expr_id)),
            Expr::Yeet(expr_id) => Ok(Expr::Yeet(*expr_id)),
            Expr::Await(expr_id) => Ok(Expr::Await(*expr_id)),
            Expr::Async(expr_id) => Ok(Expr::Async(*expr_id)),
            Expr::Const(expr_id) => Ok(Expr::Const(*expr_id)),
            Expr::OffsetOf => Ok(Expr::OffsetOf),
            Expr::InlineAsm => Ok(Expr::InlineAsm),
        }
    }
}

impl TryClone for MatchArm {
    fn try_clone(&self, _alloc: Global) -> Result<MatchArm, NoMemory> {
        Ok(*self)
    }
}

impl TryClone for RecordLitField {
    fn try_clone(&self, alloc: Global) -> Result<RecordLitField, NoMemory> {
        Ok(RecordLitField {
            name: self.name.try_clone(alloc)?,
            expr: self.expr,
        })
    }
}

impl TryClone for RecordSpread {
    fn try_clone(&self, _alloc: Global) -> Result<RecordSpread, NoMemory> {
        Ok(*self)
    }
}
