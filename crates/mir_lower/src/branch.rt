//! Where the code parts into two branches, and where these join.

ghost use Rattle.std.specs.Prelude.{◌≡◌, IfOk, IfErr};
ghost use Rattle.mir.specs.declared.errors.MirLowerError.TheVariants as refusal;
ghost use Rattle.source_meaning.specs.Meaning.{deciding_byte};
ghost use Rattle.source_meaning.specs.Source.{Source};
ghost use Rattle.mir_lower.specs.Branches.{IsReserved, IsForked, HasGoneOn};
ghost use Rattle.body_forms.specs.Contexts.{source_of};
ghost use Rattle.mir_graph.specs.Graph.{shape};
ghost use Rattle.mir_lower.specs.Growth.{IsSound, IsOpen};

use body_forms::Context;
use mir::{
    BasicBlockId, Interner, MirLowerError, MirSpan, Operand, SwitchTargets, Terminator,
    TerminatorKind,
};
use mir_graph::Graph;
use world::{ExprId, LogicOp};

/// The reserved blocks of code that parts: where the second branch begins, and where both join.
#[derive(Clone, Copy)]
pub(crate) struct Branches {
    pub other: BasicBlockId,
    pub join: BasicBlockId,
}

/// The byte of a left operand at which the right one isn't evaluated.
pub(crate) fn deciding(op: LogicOp) -> u128
    ensures { result ≡ deciding_byte op }
{
    match op {
        LogicOp::And => 0,
        LogicOp::Or => 1,
    }
}

/// Ends the current block by a test whether an operand is a number, and opens the block for the case that it is.
pub(crate) fn fork<I: Interner>(
    context: &Context<'_>,
    graph: &mut Graph<I>,
    discr: Operand,
    number: u128,
    e: ExprId,
) -> Result<Branches, MirLowerError>
    requires sound { IsSound (source_of context.now) (shape I.projections graph.old) }
    requires opened { IsOpen (shape I.projections graph.old) }
    ensures forked { IfOk result (λ branches. IsForked (source_of context.now) (shape I.projections graph.old) (shape I.projections graph.new) discr.kind number branches.other.0 branches.join.0) }
    ensures refused { IfErr result (λ error. error ≡ refusal.NoMemory) }
{
    let taken = graph.reserve_block(context.alloc)?;
    let other = graph.reserve_block(context.alloc)?;
    let join = graph.reserve_block(context.alloc)?;
    let targets = SwitchTargets::static_if(context.alloc, number, taken, other);
    graph.set_terminator(Terminator {
        span: MirSpan::ExprId(e),
        kind: TerminatorKind::SwitchInt { discr, targets },
    });
    graph.enter_block(taken);
    Ok(Branches { other, join })
}

/// Ends the current block, which leads to a block without a test, and opens a reserved block. It takes no memory.
pub(crate) fn go_on<I: Interner>(
    graph: &mut Graph<I>,
    to: BasicBlockId,
    next: BasicBlockId,
    e: ExprId,
)
    requires opened { IsOpen (shape I.projections graph.old) }
    requires reserved { IsReserved (shape I.projections graph.old) next.0 }
    ensures { (source : Source) → IsSound source (shape I.projections graph.old) → HasGoneOn source (shape I.projections graph.old) (shape I.projections graph.new) to.0 next.0 }
{
    graph.set_terminator(Terminator {
        span: MirSpan::ExprId(e),
        kind: TerminatorKind::Goto { target: to },
    });
    graph.enter_block(next);
}
