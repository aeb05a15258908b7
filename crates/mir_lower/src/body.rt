//! Lowering a whole body.

ghost use Rattle.std.specs.Prelude.{◌≡◌, ◌⊎◌, false, [], IfOk, IfErr, OnOk};
ghost use Rattle.source_meaning.specs.Source.{monomorphic};
ghost use Rattle.world.specs.Checked.{IsChecked, IsCheckedBody};
ghost use Rattle.source_meaning.specs.Source.{root};
ghost use Rattle.mir_lower.specs.Built.{IsBuilt};
ghost use Rattle.body_forms.specs.Contexts.{source_of};
ghost use Rattle.mir_lower.specs.Order.{AreInOrder};
ghost use Rattle.mir_lower.specs.Refusals.{Refuses, RefusesAt, RefusesInferred, RefusesParameters, are_some_dropped, needs_drops};
ghost use Rattle.mir_lower.specs.Simulates.{Simulates};

use crate::first::first_graph;
use crate::leave::leave_scope;
use crate::lower::lower_into;
use crate::params::lower_params;
use body_forms::{Context, form_not_built, is_copy};
use mir::{
    Local, LocalId, MirBody, MirLowerError, MirSpan, ProjectionStore, Terminator, TerminatorKind,
};
use std::alloc::Global;
use world::{Body, DefWithBodyId, HirDatabase, InferenceResult};

/// The graph of a typed body: a run of it does what the body means. Its locals are the return slot, one for each binding
/// that no closure owns, by rising id, and then the temporaries. The locals of the parameters, in order, that of `self`
/// first, are those of the bindings that these are the plain names of, and stand among those of the bindings. The
/// refusals are `HasErrors` where inference met an error, that of an expression, `NotSupported` where a parameter isn't a
/// name by value, `InaccessibleLocal` where the body lacks its binding, `NotSupported` where the world has a drop
/// function and a local's type isn't listed as `Copy`, and `NoMemory`: also where a block or a local would be the
/// 2^32nd of its kind, since the room for ids is used up then.
pub fn lower_to_mir(
    alloc: Global,
    db: &HirDatabase,
    owner: DefWithBodyId,
    body: &Body,
    infer: &InferenceResult,
) -> Result<MirBody, MirLowerError>
    requires world { IsChecked db.now }
    requires checked { IsCheckedBody body.now infer.now }
    ensures simulates { IfOk result (Simulates (monomorphic db.now body.now infer.now)) }
    ensures order { IfOk result (λ lowered. AreInOrder (monomorphic db.now body.now infer.now) lowered.locals) }
    ensures owner { IfOk result (λ lowered. lowered.owner ≡ owner) }
    ensures errors { OnOk result ((infer.now.erroneous ≡ false) × (infer.now.mismatches ≡ [])) }
    ensures dropless { IfOk result (λ lowered. needs_drops (monomorphic db.now body.now infer.now) lowered.locals ≡ false) }
    ensures built { OnOk result (IsBuilt (monomorphic db.now body.now infer.now) body.now.body_expr.0) }
    ensures refused { IfErr result (Refuses (monomorphic db.now body.now infer.now)) }
{
    if infer.erroneous || !infer.mismatches.as_slice().is_empty() {
        return Err(MirLowerError::HasErrors);
    }
    let context = Context::new(alloc, db, body, infer)?;
    lower_inferred(&context, owner)
}

/// Whether a local has a type that isn't listed as `Copy`.
fn are_some_dropped(context: &Context<'_>, locals: &[Local]) -> bool
    ensures { result ≡ are_some_dropped (source_of context.now) locals.now }
{
    locals.iter().any(|local| !is_copy(context, &local.ty))
}

/// Whether locals may need the drop function that the world has.
fn needs_drops(context: &Context<'_>, locals: &[Local]) -> bool
    ensures { result ≡ needs_drops (source_of context.now) locals.now }
{
    context.db.drop_fn.is_some() && are_some_dropped(context, locals)
}

/// The graph of a body without typing errors, whose locals need no drop function.
fn lower_inferred(context: &Context<'_>, owner: DefWithBodyId) -> Result<MirBody, MirLowerError>
    requires world { IsChecked context.now.db.now }
    requires checked { IsCheckedBody context.now.body.now context.now.infer.now }
    ensures simulates { IfOk result (Simulates (source_of context.now)) }
    ensures order { IfOk result (λ lowered. AreInOrder (source_of context.now) lowered.locals) }
    ensures owner { IfOk result (λ lowered. lowered.owner ≡ owner) }
    ensures dropless { IfOk result (λ lowered. needs_drops (source_of context.now) lowered.locals ≡ false) }
    ensures built { OnOk result (IsBuilt (source_of context.now) (root (source_of context.now))) }
    ensures refused { IfErr result (RefusesInferred (source_of context.now)) }
{
    let lowered = lower_body(context, owner)?;
    if needs_drops(context, lowered.locals.as_slice()) {
        return Err(form_not_built(context.alloc));
    }
    Ok(lowered)
}

/// The graph of a body without typing errors.
fn lower_body(context: &Context<'_>, owner: DefWithBodyId) -> Result<MirBody, MirLowerError>
    requires world { IsChecked context.now.db.now }
    requires checked { IsCheckedBody context.now.body.now context.now.infer.now }
    ensures simulates { IfOk result (Simulates (source_of context.now)) }
    ensures order { IfOk result (λ lowered. AreInOrder (source_of context.now) lowered.locals) }
    ensures owner { IfOk result (λ lowered. lowered.owner ≡ owner) }
    ensures built { OnOk result (IsBuilt (source_of context.now) (root (source_of context.now))) }
    ensures refused { IfErr result (λ error. RefusesParameters (source_of context.now) error ⊎ RefusesAt (source_of context.now) (root (source_of context.now)) error) }
{
    let start = context.body.body_expr;
    let store = ProjectionStore::new(context.alloc)?;
    let mut graph = first_graph(context, store)?;
    let scope = graph.push_drop_scope();
    let params = lower_params(context, &mut graph)?;
    lower_into(context, &mut graph, start, LocalId(0))?;
    leave_scope(context, &mut graph, scope, start)?;
    graph.set_terminator(Terminator {
        span: MirSpan::ExprId(start),
        kind: TerminatorKind::Return,
    });
    Ok(graph.into_body(owner, params))
}
