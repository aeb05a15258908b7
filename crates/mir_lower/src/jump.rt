//! Loops and labelled blocks, the jumps to them, and the jump out of the body.

ghost use Rattle.std.specs.Prelude.{◌≡◌, drop, IfOk, IfErr, OnOk, Some, None, List, ◌∷◌};
ghost use Rattle.source_meaning.specs.Source.{Source, drops};
ghost use Rattle.mir_lower.specs.Branches.{IsReserved, HasGoneOn};
ghost use Rattle.body_forms.specs.Contexts.{source_of};
ghost use Rattle.mir_graph.specs.Graph.{OpenTarget, shape, target_of_blocks, meant_target, with_targets};
ghost use Rattle.mir_lower.specs.Growth.{IsSound, IsOpen};
ghost use Rattle.mir_lower.specs.Jumps.{IsEntered, HasJumped, HasReturned, without_target};

use crate::branch::go_on;
use crate::leave::leave_marked;
use body_forms::Context;
use mir::{BasicBlockId, Interner, LocalId, MirLowerError, MirSpan, Terminator, TerminatorKind};
use mir_graph::{DropScopeToken, Graph, LoopBlocks};
use world::{ExprId, LabelId, NoMemory};

/// Enters a loop or a labelled block: the current block leads to the one where it begins, which is opened. The block behind it
/// is reserved.
pub(crate) fn enter_loop<I: Interner>(
    context: &Context<'_>,
    graph: &mut Graph<I>,
    node: ExprId,
    label: Option<LabelId>,
    to: LocalId,
) -> Result<LoopBlocks, NoMemory>
    requires sound { IsSound (source_of context.now) (shape I.projections graph.old) }
    requires opened { IsOpen (shape I.projections graph.old) }
    ensures entered { IfOk result (λ blocks. IsEntered (source_of context.now) (shape I.projections graph.old) (shape I.projections graph.new) (target_of_blocks blocks)) }
    ensures node { IfOk result (λ blocks. blocks.node ≡ node) }
    ensures label { IfOk result (λ blocks. blocks.label ≡ label) }
    ensures value { IfOk result (λ blocks. blocks.to ≡ to) }
{
    let begin = graph.reserve_block(context.alloc)?;
    let end = graph.reserve_block(context.alloc)?;
    let blocks = LoopBlocks {
        node,
        label,
        begin,
        end,
        to,
        drop_scope: graph.push_drop_scope(),
    };
    graph.push_loop(blocks)?;
    go_on(graph, begin, begin, node);
    Ok(blocks)
}

/// Leaves the innermost loop or labelled block: the current block leads to another one, and the block behind the loop is opened.
/// It takes no memory.
pub(crate) fn leave_loop<I: Interner>(graph: &mut Graph<I>, blocks: LoopBlocks, to: BasicBlockId)
    requires opened { IsOpen (shape I.projections graph.old) }
    requires reserved { IsReserved (shape I.projections graph.old) blocks.end.0 }
    ensures { (source : Source) (first : OpenTarget) (outer : List OpenTarget) → IsSound source (shape I.projections graph.old) → (shape I.projections graph.old).targets ≡ first ∷ outer
        → HasGoneOn source (with_targets outer (shape I.projections graph.old)) (shape I.projections graph.new) to.0 blocks.end.0 }
{
    graph.pop_loop();
    go_on(graph, to, blocks.end, blocks.node);
}

/// The loop or labelled block that a jump means.
pub(crate) fn target_of_jump<I: Interner>(
    graph: &Graph<I>,
    label: Option<LabelId>,
    unlabelled: MirLowerError,
) -> Result<LoopBlocks, MirLowerError>
    ensures found { IfOk result (λ blocks. meant_target label (shape I.projections graph.now).targets ≡ Some (target_of_blocks blocks)) }
    ensures missing { IfErr result (λ error. meant_target label (shape I.projections graph.now).targets ≡ None) }
    ensures refused { IfErr result (λ error. error ≡ without_target label unlabelled) }
{
    match graph.innermost(label) {
        Some(blocks) => Ok(blocks),
        None => match label {
            Some(_) => Err(MirLowerError::UnresolvedLabel),
            None => Err(unlabelled),
        },
    }
}

/// Jumps to a block: all scopes inside the target are left, and what follows goes into a new block that nothing leads to. A block
/// that would be the 2^32nd has no id: `NoMemory`.
pub(crate) fn jump<I: Interner>(
    context: &Context<'_>,
    graph: &mut Graph<I>,
    drop_scope: DropScopeToken,
    to: BasicBlockId,
    e: ExprId,
) -> Result<(), NoMemory>
    requires sound { IsSound (source_of context.now) (shape I.projections graph.old) }
    requires opened { IsOpen (shape I.projections graph.old) }
    ensures { OnOk result (HasJumped (source_of context.now) (shape I.projections graph.old) (shape I.projections graph.new) to.0 (drops (source_of context.now) (drop drop_scope.0 (shape I.projections graph.old).scope))) }
{
    leave_marked(context, graph, drop_scope, e)?;
    graph.set_terminator(Terminator {
        span: MirSpan::ExprId(e),
        kind: TerminatorKind::Goto { target: to },
    });
    graph.open_block(context.alloc)
}

/// Returns from the body: all open scopes are left, and what follows goes into a new block that nothing leads to. A block that would
/// be the 2^32nd has no id: `NoMemory`.
pub(crate) fn return_from<I: Interner>(
    context: &Context<'_>,
    graph: &mut Graph<I>,
    e: ExprId,
) -> Result<(), NoMemory>
    requires sound { IsSound (source_of context.now) (shape I.projections graph.old) }
    requires opened { IsOpen (shape I.projections graph.old) }
    ensures { OnOk result (HasReturned (source_of context.now) (shape I.projections graph.old) (shape I.projections graph.new) (drops (source_of context.now) (shape I.projections graph.old).scope)) }
{
    leave_marked(context, graph, DropScopeToken(0), e)?;
    graph.set_terminator(Terminator {
        span: MirSpan::ExprId(e),
        kind: TerminatorKind::Return,
    });
    graph.open_block(context.alloc)
}
