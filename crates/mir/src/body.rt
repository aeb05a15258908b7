//! Bodies as graphs of basic blocks.

use crate::{
    BasicBlockId, LocalId, MirSpan, Operand, Place, ProjectionStore, Statement, SwitchTargets,
};
use world::{DefWithBodyId, List, Ty};

/// A local variable of a body.
#[derive(PartialEq, Eq)]
pub struct Local {
    pub ty: Ty,
}

impl Drop for Local {
    fn drop(self) {
        let Local { ty: _ty } = self;
    }
}

/// How a block ends, and what that was lowered from.
#[derive(PartialEq, Eq)]
pub struct Terminator {
    pub span: MirSpan,
    pub kind: TerminatorKind,
}

impl Drop for Terminator {
    fn drop(self) {
        let Terminator {
            span: _span,
            kind: _kind,
        } = self;
    }
}

/// How a block ends.
#[derive(PartialEq, Eq, Drop)]
pub enum TerminatorKind {
    /// The run goes on at `target`.
    Goto {
        target: BasicBlockId,
    },
    /// The operand's bytes are read as an unsigned number, and the run goes on at its target, as
    /// rustc's documentation of `TerminatorKind::SwitchInt` says.
    SwitchInt {
        discr: Operand,
        targets: SwitchTargets,
    },
    /// The body returns: its caller goes on. Where none called it, the run ends, and the bytes of local 0 are its value.
    Return,
    /// The value at the place is dropped, and the run goes on at `target`.
    Drop {
        place: Place,
        target: BasicBlockId,
        unwind: Option<BasicBlockId>,
    },
    /// The function that the type of `func` names is called with the arguments, as rustc's documentation of
    /// `TerminatorKind::Call` says. Its result goes to the destination, and the run goes on at `target`. A call
    /// without a target is one whose callee must not return.
    Call {
        func: Operand,
        args: List<Operand>,
        destination: Place,
        target: Option<BasicBlockId>,
        cleanup: Option<BasicBlockId>,
        from_hir_call: bool,
    },
}

/// Statements that run in order, and then a terminator.
#[derive(PartialEq, Eq)]
pub struct BasicBlock {
    pub statements: List<Statement>,
    pub terminator: Option<Terminator>,
    pub is_cleanup: bool,
}

impl Drop for BasicBlock {
    fn drop(self) {
        let BasicBlock {
            statements: _statements,
            terminator: _terminator,
            is_cleanup: _is_cleanup,
        } = self;
    }
}

/// A lowered body.
#[derive(PartialEq, Eq)]
pub struct MirBody {
    /// The projections of its places, each under one id.
    pub projection_store: ProjectionStore,
    pub basic_blocks: List<BasicBlock>,
    /// Local 0 is the return slot.
    pub locals: List<Local>,
    pub start_block: BasicBlockId,
    pub owner: DefWithBodyId,
    /// The locals that a call's arguments go to, in the order of the arguments.
    pub param_locals: List<LocalId>,
}

impl Drop for MirBody {
    fn drop(self) {
        let MirBody {
            projection_store: _projection_store,
            basic_blocks: _basic_blocks,
            locals: _locals,
            start_block: _start_block,
            owner: _owner,
            param_locals: _param_locals,
        } = self;
    }
}
