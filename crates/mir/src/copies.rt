//! Copies of errors, operands and bodies, which equal them.
ghost use Rattle.std.specs.Prelude.{◌≡◌, IfOk};
ghost use Rattle.mir.specs.declared.operand.Rvalue.TheVariants.{Aggregate, Cast, CheckedBinaryOp, Repeat};

use crate::{
    AggregateKind, BasicBlock, BinOp, CastKind, ConstEvalError, LayoutError, Local, LocalId,
    MirBody, MirEvalError, MirLowerError, Operand, OperandKind, Rvalue, Statement, StatementKind,
    Terminator, TerminatorKind, TrailEntry,
};
use std::alloc::Global;
use world::{Box, Const, List, NoMemory, TryClone, Ty};

impl TryClone for LayoutError {
    fn try_clone(&self, _alloc: Global) -> Result<LayoutError, NoMemory> {
        Ok(*self)
    }
}

impl TryClone for TrailEntry {
    fn try_clone(&self, _alloc: Global) -> Result<TrailEntry, NoMemory> {
        Ok(*self)
    }
}

impl TryClone for MirLowerError {
    fn try_clone(&self, alloc: Global) -> Result<MirLowerError, NoMemory> {
        match self {
            MirLowerError::LayoutError(error) => Ok(MirLowerError::LayoutError(*error)),
            MirLowerError::IncompleteExpr => Ok(MirLowerError::IncompleteExpr),
            MirLowerError::UnresolvedName(name) => {
                Ok(MirLowerError::UnresolvedName(name.try_clone(alloc)?))
            }
            MirLowerError::HasErrors => Ok(MirLowerError::HasErrors),
            MirLowerError::TypeError(text) => Ok(MirLowerError::TypeError(text.try_clone(alloc)?)),
            MirLowerError::NotSupported(text) => {
                Ok(MirLowerError::NotSupported(text.try_clone(alloc)?))
            }
            MirLowerError::ContinueWithoutLoop => Ok(MirLowerError::ContinueWithoutLoop),
            MirLowerError::BreakWithoutLoop => Ok(MirLowerError::BreakWithoutLoop),
            MirLowerError::UnresolvedLabel => Ok(MirLowerError::UnresolvedLabel),
            MirLowerError::InaccessibleLocal => Ok(MirLowerError::InaccessibleLocal),
            MirLowerError::NoMemory => Ok(MirLowerError::NoMemory),
        }
    }
}

/// A copy of the way in which a run ended, which equals it.
fn copy_eval_error(alloc: Global, error: &MirEvalError) -> Result<MirEvalError, NoMemory>
    ensures { IfOk result (λ copy. copy ≡ error.now) }
{
    match error {
        MirEvalError::LayoutError(error, ty) => {
            Ok(MirEvalError::LayoutError(*error, ty.try_clone(alloc)?))
        }
        MirEvalError::TargetDataLayoutNotAvailable(krate) => {
            Ok(MirEvalError::TargetDataLayoutNotAvailable(*krate))
        }
        MirEvalError::UndefinedBehavior(text) => {
            Ok(MirEvalError::UndefinedBehavior(text.try_clone(alloc)?))
        }
        MirEvalError::Panic(text) => Ok(MirEvalError::Panic(text.try_clone(alloc)?)),
        MirEvalError::MirLowerError(function, error) => Ok(MirEvalError::MirLowerError(
            *function,
            error.try_clone(alloc)?,
        )),
        MirEvalError::TypeIsUnsized(ty, text) => {
            let ty = ty.try_clone(alloc)?;
            Ok(MirEvalError::TypeIsUnsized(ty, text.try_clone(alloc)?))
        }
        MirEvalError::NotSupported(text) => Ok(MirEvalError::NotSupported(text.try_clone(alloc)?)),
        MirEvalError::InFunction(inner, trail) => {
            let inner = copy_eval_error(alloc, inner.as_ref())?;
            let trail = trail.try_clone(alloc)?;
            Ok(MirEvalError::InFunction(Box::new(alloc, inner)?, trail))
        }
        MirEvalError::ExecutionLimitExceeded => Ok(MirEvalError::ExecutionLimitExceeded),
        MirEvalError::StackOverflow => Ok(MirEvalError::StackOverflow),
        MirEvalError::MemoryLimitExceeded => Ok(MirEvalError::MemoryLimitExceeded),
        MirEvalError::InternalError(text) => {
            Ok(MirEvalError::InternalError(text.try_clone(alloc)?))
        }
        MirEvalError::NoMemory => Ok(MirEvalError::NoMemory),
    }
}

impl TryClone for MirEvalError {
    fn try_clone(&self, alloc: Global) -> Result<MirEvalError, NoMemory> {
        copy_eval_error(alloc, self)
    }
}

impl TryClone for ConstEvalError {
    fn try_clone(&self, alloc: Global) -> Result<ConstEvalError, NoMemory> {
        match self {
            ConstEvalError::MirLowerError(error) => {
                Ok(ConstEvalError::MirLowerError(error.try_clone(alloc)?))
            }
            ConstEvalError::MirEvalError(error) => {
                Ok(ConstEvalError::MirEvalError(error.try_clone(alloc)?))
            }
            ConstEvalError::NoMemory => Ok(ConstEvalError::NoMemory),
        }
    }
}

impl TryClone for OperandKind {
    fn try_clone(&self, alloc: Global) -> Result<OperandKind, NoMemory> {
        match self {
            OperandKind::Copy(place) => Ok(OperandKind::Copy(*place)),
            OperandKind::Constant { konst, ty } => {
                let konst = konst.try_clone(alloc)?;
                let ty = ty.try_clone(alloc)?;
                Ok(OperandKind::Constant { konst, ty })
            }
        }
    }
}

impl TryClone for Operand {
    fn try_clone(&self, alloc: Global) -> Result<Operand, NoMemory> {
        let kind = self.kind.try_clone(alloc)?;
        Ok(Operand {
            kind,
            span: self.span,
        })
    }
}

impl TryClone for AggregateKind {
    fn try_clone(&self, alloc: Global) -> Result<AggregateKind, NoMemory> {
        match self {
            AggregateKind::Array(ty) => Ok(AggregateKind::Array(ty.try_clone(alloc)?)),
            AggregateKind::Tuple(ty) => Ok(AggregateKind::Tuple(ty.try_clone(alloc)?)),
            AggregateKind::Adt(id, args) => Ok(AggregateKind::Adt(*id, args.try_clone(alloc)?)),
        }
    }
}

fn copy_repeat(alloc: Global, operand: &Operand, len: &Const) -> Result<Rvalue, NoMemory>
    ensures { IfOk result (λ copy. copy ≡ Repeat operand.now len.now) }
{
    let operand = operand.try_clone(alloc)?;
    let len = len.try_clone(alloc)?;
    Ok(Rvalue::Repeat(operand, len))
}

fn copy_cast(alloc: Global, kind: CastKind, operand: &Operand, ty: &Ty) -> Result<Rvalue, NoMemory>
    ensures { IfOk result (λ copy. copy ≡ Cast kind operand.now ty.now) }
{
    let operand = operand.try_clone(alloc)?;
    let ty = ty.try_clone(alloc)?;
    Ok(Rvalue::Cast(kind, operand, ty))
}

fn copy_binary(
    alloc: Global,
    op: BinOp,
    left: &Operand,
    right: &Operand,
) -> Result<Rvalue, NoMemory>
    ensures { IfOk result (λ copy. copy ≡ CheckedBinaryOp op left.now right.now) }
{
    let left = left.try_clone(alloc)?;
    let right = right.try_clone(alloc)?;
    Ok(Rvalue::CheckedBinaryOp(op, left, right))
}

fn copy_aggregate(
    alloc: Global,
    kind: &AggregateKind,
    operands: &List<Operand>,
) -> Result<Rvalue, NoMemory>
    ensures { IfOk result (λ copy. copy ≡ Aggregate kind.now operands.now) }
{
    let kind = kind.try_clone(alloc)?;
    let operands = operands.try_clone(alloc)?;
    Ok(Rvalue::Aggregate(kind, operands))
}

impl TryClone for Rvalue {
    fn try_clone(&self, alloc: Global) -> Result<Rvalue, NoMemory> {
        match self {
            Rvalue::Use(operand) => Ok(Rvalue::Use(operand.try_clone(alloc)?)),
            Rvalue::Repeat(operand, len) => copy_repeat(alloc, operand, len),
            Rvalue::Cast(kind, operand, ty) => copy_cast(alloc, *kind, operand, ty),
            Rvalue::CheckedBinaryOp(op, left, right) => copy_binary(alloc, *op, left, right),
            Rvalue::UnaryOp(op, operand) => Ok(Rvalue::UnaryOp(*op, operand.try_clone(alloc)?)),
            Rvalue::Aggregate(kind, operands) => copy_aggregate(alloc, kind, operands),
        }
    }
}

impl TryClone for StatementKind {
    fn try_clone(&self, alloc: Global) -> Result<StatementKind, NoMemory> {
        match self {
            StatementKind::Assign(place, rvalue) => {
                Ok(StatementKind::Assign(*place, rvalue.try_clone(alloc)?))
            }
            StatementKind::FakeRead(place) => Ok(StatementKind::FakeRead(*place)),
            StatementKind::StorageLive(local) => Ok(StatementKind::StorageLive(*local)),
            StatementKind::StorageDead(local) => Ok(StatementKind::StorageDead(*local)),
        }
    }
}

impl TryClone for Statement {
    fn try_clone(&self, alloc: Global) -> Result<Statement, NoMemory> {
        let kind = self.kind.try_clone(alloc)?;
        Ok(Statement {
            kind,
            span: self.span,
        })
    }
}

impl TryClone for TerminatorKind {
    fn try_clone(&self, alloc: Global) -> Result<TerminatorKind, NoMemory> {
        match self {
            TerminatorKind::Goto { target } => Ok(TerminatorKind::Goto { target: *target }),
            TerminatorKind::SwitchInt { discr, targets } => {
                let discr = discr.try_clone(alloc)?;
                let targets = targets.try_clone(alloc)?;
                Ok(TerminatorKind::SwitchInt { discr, targets })
            }
            TerminatorKind::Return => Ok(TerminatorKind::Return),
            TerminatorKind::Drop {
                place,
                target,
                unwind,
            } => Ok(TerminatorKind::Drop {
                place: *place,
                target: *target,
                unwind: *unwind,
            }),
            TerminatorKind::Call {
                func,
                args,
                destination,
                target,
                cleanup,
                from_hir_call,
            } => {
                let func = func.try_clone(alloc)?;
                let args = args.try_clone(alloc)?;
                Ok(TerminatorKind::Call {
                    func,
                    args,
                    destination: *destination,
                    target: *target,
                    cleanup: *cleanup,
                    from_hir_call: *from_hir_call,
                })
            }
        }
    }
}

impl TryClone for Terminator {
    fn try_clone(&self, alloc: Global) -> Result<Terminator, NoMemory> {
        let kind = self.kind.try_clone(alloc)?;
        Ok(Terminator {
            span: self.span,
            kind,
        })
    }
}

impl TryClone for BasicBlock {
    fn try_clone(&self, alloc: Global) -> Result<BasicBlock, NoMemory> {
        let statements = self.statements.try_clone(alloc)?;
        let terminator = self.terminator.try_clone(alloc)?;
        Ok(BasicBlock {
            statements,
            terminator,
            is_cleanup: self.is_cleanup,
        })
    }
}

impl TryClone for LocalId {
    fn try_clone(&self, _alloc: Global) -> Result<LocalId, NoMemory> {
        Ok(*self)
    }
}

impl TryClone for Local {
    fn try_clone(&self, alloc: Global) -> Result<Local, NoMemory> {
        let ty = self.ty.try_clone(alloc)?;
        Ok(Local { ty })
    }
}

impl TryClone for MirBody {
    fn try_clone(&self, alloc: Global) -> Result<MirBody, NoMemory> {
        let projection_store = self.projection_store.try_clone(alloc)?;
        let basic_blocks = self.basic_blocks.try_clone(alloc)?;
        let locals = self.locals.try_clone(alloc)?;
        let param_locals = self.param_locals.try_clone(alloc)?;
        Ok(MirBody {
            projection_store,
            basic_blocks,
            locals,
            start_block: self.start_block,
            owner: self.owner,
            param_locals,
        })
    }
}
