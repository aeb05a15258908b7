//! Bodies: trees of expressions and patterns, whose nodes name one another by id.
ghost use Rattle.std.specs.Prelude.{◌≡◌};
ghost use Rattle.world.specs.Empty.{empty_body};

use crate::{BindingId, Expr, ExprId, List, NoMemory, Pat, PatId, Text, TryClone};
use std::alloc::Global;

/// The body of an item. A child's id is below its parent's of the same kind.
#[derive(PartialEq, Eq, PartialOrd, Ord, Hash)]
pub struct Body {
    pub exprs: List<Expr>,
    pub pats: List<Pat>,
    pub bindings: List<Binding>,
    /// The names of the labels.
    pub labels: List<Text>,
    /// The patterns of the parameters, `self` left out.
    pub params: List<PatId>,
    pub self_param: Option<BindingId>,
    pub body_expr: ExprId,
}

impl Drop for Body {
    fn drop(self) {
        let Body {
            exprs: _exprs,
            pats: _pats,
            bindings: _bindings,
            labels: _labels,
            params: _params,
            self_param: _self_param,
            body_expr: _body_expr,
        } = self;
    }
}

/// A variable of a body.
#[derive(PartialEq, Eq, PartialOrd, Ord, Hash)]
pub struct Binding {
    pub name: Text,
    pub mode: BindingAnnotation,
    /// The closure that it is in.
    pub owner: Option<ExprId>,
}

impl Drop for Binding {
    fn drop(self) {
        let Binding {
            name: _name,
            mode: _mode,
            owner: _owner,
        } = self;
    }
}

/// How a binding is written.
#[derive(Clone, Copy, PartialEq, Eq, PartialOrd, Ord, Hash)]
pub enum BindingAnnotation {
    Unannotated,
    Mutable,
    Ref,
    RefMut,
}

/// A statement of a block.
#[derive(Clone, Copy, PartialEq, Eq, PartialOrd, Ord, Hash)]
pub enum Statement {
    Let {
        pat: PatId,
        initializer: Option<ExprId>,
        else_branch: Option<ExprId>,
    },
    Expr {
        expr: ExprId,
        has_semi: bool,
    },
    Item,
}

impl Body {
    /// A body of no nodes, with the id that its root is to have. It takes no memory.
    pub fn new(alloc: Global, root: ExprId) -> Body
        ensures { result ≡ empty_body root }
    {
        Body {
            exprs: List::new(alloc),
            pats: List::new(alloc),
            bindings: List::new(alloc),
            labels: List::new(alloc),
            params: List::new(alloc),
            self_param: None,
            body_expr: root,
        }
    }
}

impl TryClone for Body {
    fn try_clone(&self, alloc: Global) -> Result<Body, NoMemory> {
        Ok(Body {
            exprs: self.exprs.try_clone(alloc)?,
            pats: self.pats.try_clone(alloc)?,
            bindings: self.bindings.try_clone(alloc)?,
            labels: self.labels.try_clone(alloc)?,
            params: self.params.try_clone(alloc)?,
            self_param: self.self_param,
            body_expr: self.body_expr,
        })
    }
}

impl TryClone for Binding {
    fn try_clone(&self, alloc: Global) -> Result<Binding, NoMemory> {
        Ok(Binding {
            name: self.name.try_clone(alloc)?,
            mode: self.mode,
            owner: self.owner,
        })
    }
}

impl TryClone for BindingAnnotation {
    fn try_clone(&self, _alloc: Global) -> Result<BindingAnnotation, NoMemory> {
        Ok(*self)
    }
}

impl TryClone for Statement {
    fn try_clone(&self, _alloc: Global) -> Result<Statement, NoMemory> {
        Ok(*self)
    }
}
