//! From a definition to its lowered body.

ghost use Rattle.std.specs.Prelude.{◌≡◌, ◌⊎◌, [], IsTrue, IfOk, IfErr, OnOk};
ghost use Rattle.mir.specs.declared.errors.MirLowerError.TheVariants as refusal;
ghost use Rattle.std.specs.Option.{option_copied};
ghost use Rattle.consteval.specs.Refusals.{RefusesBody};
ghost use Rattle.consteval.specs.Built.{has_errors, has_generics, is_generic_function, is_unbuilt, is_unbuilt_definition};
ghost use Rattle.consteval.specs.Kept.{IsLowered};

use body_forms::form_not_built;
use mir::{MirBody, MirLowerError};
use mir_lower::lower_to_mir;
use std::alloc::Global;
use world::{ConstRow, DefWithBodyId, FunctionRow, GenericArgs, HirDatabase, InferenceResult};
use world_check::CheckedWorld;

/// Whether there are no arguments.
pub(crate) fn has_none(args: &GenericArgs) -> bool
    ensures empty { IsTrue result → args.now.0 ≡ [] }
    ensures only { args.now.0 ≡ [] → IsTrue result }
{
    args.0.as_slice().is_empty()
}

/// Whether a constant has generic parameters.
fn has_generics(row: Option<&ConstRow>) -> bool
    ensures { result ≡ has_generics (option_copied row.entry) }
{
    match row {
        Some(row) => !row.generics.as_slice().is_empty(),
        None => false,
    }
}

/// Whether a function has generic parameters.
fn is_generic_function(row: Option<&FunctionRow>) -> bool
    ensures { result ≡ is_generic_function (option_copied row.entry) }
{
    match row {
        Some(row) => !row.generics.as_slice().is_empty(),
        None => false,
    }
}

/// Whether a definition isn't built yet, whatever arguments it is given: a static, a variant, or a
/// constant or a function with generic parameters.
fn is_unbuilt_definition(db: &HirDatabase, def: DefWithBodyId) -> bool
    ensures { result ≡ is_unbuilt_definition db.now def }
{
    match def {
        DefWithBodyId::ConstId(id) => has_generics(db.consts.get(id.0 as u64)),
        DefWithBodyId::FunctionId(id) => is_generic_function(db.functions.get(id.0 as u64)),
        _ => true,
    }
}

/// Whether a definition isn't built yet: it was given arguments, or it isn't whatever it is given.
fn is_unbuilt(db: &HirDatabase, def: DefWithBodyId, args: &GenericArgs) -> bool
    ensures { result ≡ is_unbuilt db.now def args.now }
{
    !args.0.as_slice().is_empty() || is_unbuilt_definition(db, def)
}

/// Whether inference met an error in what it found of a body.
fn has_errors(infer: Option<&InferenceResult>) -> bool
    ensures { result ≡ has_errors (option_copied infer.entry) }
{
    match infer {
        Some(infer) => infer.erroneous || !infer.mismatches.as_slice().is_empty(),
        None => false,
    }
}

/// The lowered body of a definition. The refusals, in this order: `HasErrors` where inference met an
/// error in its body, `NotSupported` where there are arguments or the definition's kind isn't built yet,
/// `IncompleteExpr` where there is no body, and those of its expressions.
/// `NoMemory` may come in place of any of them.
pub(crate) fn lower(
    alloc: Global,
    world: &CheckedWorld,
    def: DefWithBodyId,
    args: &GenericArgs,
) -> Result<MirBody, MirLowerError>
    ensures lowered { IfOk result (IsLowered world.now def) }
    ensures given { OnOk result (args.now.0 ≡ []) }
    ensures refused { IfErr result (λ e. (e ≡ refusal.NoMemory) ⊎ RefusesBody world.now def args.now e) }
{
    let db = world.db();
    if has_errors(db.infer(def)) {
        return Err(MirLowerError::HasErrors);
    }
    if is_unbuilt(db, def, args) {
        return Err(form_not_built(alloc));
    }
    let Some(body) = db.body(def) else {
        return Err(MirLowerError::IncompleteExpr);
    };
    let Some(infer) = db.infer(def) else {
        return Err(MirLowerError::IncompleteExpr);
    };
    lower_to_mir(alloc, db, def, body, infer)
}
