//! Calls: the terminator of a call, and the block behind it.

ghost use Rattle.std.specs.Prelude.{◌≡◌, ◌<◌, length, IfOk, IfSome, OnOk};
ghost use Rattle.source_meaning.specs.Calls.{must_not_return};
ghost use Rattle.body_forms.specs.Contexts.{source_of};
ghost use Rattle.mir_lower.specs.Calling.{call_terminator, target_of_call};
ghost use Rattle.mir.specs.WholePlaces.{whole_place};
ghost use Rattle.mir_graph.specs.Graph.{shape, with_block, with_terminator};
ghost use Rattle.mir_lower.specs.Growth.{IsOpen};

use body_forms::{Context, must_not_return};
use mir::{BasicBlockId, Interner, LocalId, MirSpan, Operand, Place, Terminator, TerminatorKind};
use mir_graph::Graph;
use std::alloc::Global;
use world::{ExprId, List, NoMemory};

/// The block that a call goes on in, where its callee may return.
fn target_of_call(context: &Context<'_>, e: ExprId, next: BasicBlockId) -> Option<BasicBlockId>
    ensures { result ≡ target_of_call (must_not_return (source_of context.now) e.0) next }
{
    if must_not_return(context, e) {
        None
    } else {
        Some(next)
    }
}

/// Ends the current block by a call, and opens a new one, which is the call's target where it has one. A block that would be the
/// 2^32nd has no id: `NoMemory`.
fn end_by_call<I: Interner>(
    alloc: Global,
    graph: &mut Graph<I>,
    e: ExprId,
    func: Operand,
    args: List<Operand>,
    to: LocalId,
    target: Option<BasicBlockId>,
) -> Result<(), NoMemory>
    requires { IsOpen (shape I.projections graph.old) }
    ensures { OnOk result (shape I.projections graph.new ≡ with_block (with_terminator (call_terminator e func args (whole_place to) target) (shape I.projections graph.old))) }
{
    graph.set_terminator(Terminator {
        span: MirSpan::ExprId(e),
        kind: TerminatorKind::Call {
            func,
            args,
            destination: Place::from(to),
            target,
            cleanup: None,
            from_hir_call: true,
        },
    });
    graph.open_block(alloc)
}

/// Ends the current block by a call of the function that an operand names. What follows goes into a new block: the call's target, or,
/// where the callee must not return, one that nothing leads to.
pub(crate) fn call<I: Interner>(
    context: &Context<'_>,
    graph: &mut Graph<I>,
    e: ExprId,
    func: Operand,
    args: List<Operand>,
    to: LocalId,
) -> Result<(), NoMemory>
    requires { IsOpen (shape I.projections graph.old) }
    ensures { OnOk result ((next : _) × (next.0 ≡ length (shape I.projections graph.old).blocks) × (shape I.projections graph.new ≡ with_block (with_terminator (call_terminator e func args (whole_place to) (target_of_call (must_not_return (source_of context.now) e.0) next)) (shape I.projections graph.old)))) }
{
    let count = graph.blocks.len();
    if count >= u32::MAX as usize {
        return Err(NoMemory);
    }
    let next = BasicBlockId(count as u32);
    let target = target_of_call(context, e, next);
    end_by_call(context.alloc, graph, e, func, args, to, target)
}
