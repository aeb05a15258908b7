//! The texts of errors.

ghost use Rattle.std.specs.Prelude.{◌≡◌, [], ◌∷◌, codes, map, IfOk};
ghost use Rattle.report_text.specs.Texts.{named, quoted};
ghost use Rattle.report_text.specs.Types.{type_text};
ghost use Rattle.report_text.specs.Ids.{crate_text, function_text};
ghost use Rattle.report_text.specs.Faults.{layout_error_text, entry_text, trail_text, lower_error_text, eval_error_text, fault_text};

use crate::ids::{callee_text, crate_text, def_text, function_text, span_text};
use crate::texts::{bracketed, enclosed, joined, named_one, named_two, quoted};
use crate::ty::type_text;
use mir::{ConstEvalError, LayoutError, MirEvalError, MirLowerError, TrailEntry};
use std::alloc::Global;
use world::{Bytes, Crate, FunctionId, HirDatabase, List, NoMemory, Text, Ty};

/// The text of why a type has no layout.
fn layout_error_text(alloc: Global, error: LayoutError) -> Result<Bytes, NoMemory>
    ensures { IfOk result (λ text. text ≡ layout_error_text error) }
{
    match error {
        LayoutError::HasPlaceholder => Bytes::from_slice(alloc, b"HasPlaceholder"),
        LayoutError::Unknown => Bytes::from_slice(alloc, b"Unknown"),
    }
}

/// The text of a call that an error passed through: what was called, at which place in the source, and the body
/// that this place is in.
fn entry_text(alloc: Global, entry: TrailEntry) -> Result<Bytes, NoMemory>
    ensures { IfOk result (λ text. text ≡ entry_text entry) }
{
    let callee = callee_text(alloc, entry.callee)?;
    let span = span_text(alloc, entry.span)?;
    let caller = def_text(alloc, entry.caller)?;
    let place = enclosed(alloc, span.as_slice(), b" of ", caller.as_slice())?;
    enclosed(alloc, callee.as_slice(), b" at ", place.as_slice())
}

/// The texts of the calls that an error passed through.
fn entry_texts(alloc: Global, trail: &[TrailEntry]) -> Result<List<Bytes>, NoMemory>
    ensures { IfOk result (λ texts. texts ≡ map entry_text trail.now) }
{
    let mut texts = List::new(alloc);
    for entry in trail {
        texts.push(entry_text(alloc, *entry)?)?;
    }
    Ok(texts)
}

/// The text of all calls that an error passed through, in brackets.
fn trail_text(alloc: Global, trail: &List<TrailEntry>) -> Result<Bytes, NoMemory>
    ensures { IfOk result (λ text. text ≡ trail_text trail.now) }
{
    let texts = entry_texts(alloc, trail.as_slice())?;
    bracketed(alloc, texts.as_slice())
}

/// A name with a text in quotes.
fn with_quoted(alloc: Global, name: &[u8], text: &Text) -> Result<Bytes, NoMemory>
    ensures { IfOk result (λ whole. whole ≡ named name.now (quoted text.now ∷ [])) }
{
    let part = quoted(alloc, text.as_str())?;
    named_one(alloc, name, part)
}

/// The text of why a body could not be lowered to MIR.
fn lower_error_text(alloc: Global, error: &MirLowerError) -> Result<Bytes, NoMemory>
    ensures { IfOk result (λ text. text ≡ lower_error_text error.now) }
{
    match error {
        MirLowerError::LayoutError(error) => {
            let part = layout_error_text(alloc, *error)?;
            named_one(alloc, b"LayoutError", part)
        }
        MirLowerError::IncompleteExpr => Bytes::from_slice(alloc, b"IncompleteExpr"),
        MirLowerError::UnresolvedName(name) => with_quoted(alloc, b"UnresolvedName", name),
        MirLowerError::HasErrors => Bytes::from_slice(alloc, b"HasErrors"),
        MirLowerError::TypeError(text) => with_quoted(alloc, b"TypeError", text),
        MirLowerError::NotSupported(text) => with_quoted(alloc, b"NotSupported", text),
        MirLowerError::ContinueWithoutLoop => Bytes::from_slice(alloc, b"ContinueWithoutLoop"),
        MirLowerError::BreakWithoutLoop => Bytes::from_slice(alloc, b"BreakWithoutLoop"),
        MirLowerError::UnresolvedLabel => Bytes::from_slice(alloc, b"UnresolvedLabel"),
        MirLowerError::InaccessibleLocal => Bytes::from_slice(alloc, b"InaccessibleLocal"),
        MirLowerError::NoMemory => Bytes::from_slice(alloc, b"NoMemory"),
    }
}

/// The text of the error for a type without a layout.
fn no_layout_text(
    alloc: Global,
    db: &HirDatabase,
    error: LayoutError,
    ty: &Ty,
) -> Result<Bytes, NoMemory>
    ensures { IfOk result (λ text. text ≡ named (codes "LayoutError") (layout_error_text error ∷ type_text db.now ty.now ∷ [])) }
{
    let error = layout_error_text(alloc, error)?;
    let ty = type_text(alloc, db, ty)?;
    named_two(alloc, b"LayoutError", error, ty)
}

/// The text of the error for a type without a size.
fn unsized_text(alloc: Global, db: &HirDatabase, ty: &Ty, what: &Text) -> Result<Bytes, NoMemory>
    ensures { IfOk result (λ text. text ≡ named (codes "TypeIsUnsized") (type_text db.now ty.now ∷ quoted what.now ∷ [])) }
{
    let ty = type_text(alloc, db, ty)?;
    let what = quoted(alloc, what.as_str())?;
    named_two(alloc, b"TypeIsUnsized", ty, what)
}

/// The text of the error for a crate without a target data layout.
fn no_target_text(alloc: Global, krate: Crate) -> Result<Bytes, NoMemory>
    ensures { IfOk result (λ text. text ≡ named (codes "TargetDataLayoutNotAvailable") (crate_text krate ∷ [])) }
{
    let part = crate_text(alloc, krate)?;
    named_one(alloc, b"TargetDataLayoutNotAvailable", part)
}

/// The text of the error for a function that was called and whose body could not be lowered to MIR.
fn callee_not_lowered_text(
    alloc: Global,
    id: FunctionId,
    error: &MirLowerError,
) -> Result<Bytes, NoMemory>
    ensures { IfOk result (λ text. text ≡ named (codes "MirLowerError") (function_text id ∷ lower_error_text error.now ∷ [])) }
{
    let callee = function_text(alloc, id)?;
    let error = lower_error_text(alloc, error)?;
    named_two(alloc, b"MirLowerError", callee, error)
}

/// The text of an error that was raised in a function, from the text of that error and the calls that it passed
/// through.
fn in_function_text(
    alloc: Global,
    inner: Bytes,
    trail: &List<TrailEntry>,
) -> Result<Bytes, NoMemory>
    ensures { IfOk result (λ text. text ≡ named (codes "InFunction") (inner ∷ trail_text trail.now ∷ [])) }
{
    let trail = trail_text(alloc, trail)?;
    named_two(alloc, b"InFunction", inner, trail)
}

/// The text of an error of running MIR.
#[tactic(auto, unfolding(crate::specs::Faults::eval_error_text))]
fn eval_error_text(alloc: Global, db: &HirDatabase, error: &MirEvalError) -> Result<Bytes, NoMemory>
    ensures { IfOk result (λ text. text ≡ eval_error_text db.now error.now) }
{
    match error {
        MirEvalError::LayoutError(error, ty) => no_layout_text(alloc, db, *error, ty),
        MirEvalError::TargetDataLayoutNotAvailable(krate) => no_target_text(alloc, *krate),
        MirEvalError::UndefinedBehavior(text) => with_quoted(alloc, b"UndefinedBehavior", text),
        MirEvalError::Panic(text) => with_quoted(alloc, b"Panic", text),
        MirEvalError::MirLowerError(id, error) => callee_not_lowered_text(alloc, *id, error),
        MirEvalError::TypeIsUnsized(ty, text) => unsized_text(alloc, db, ty, text),
        MirEvalError::NotSupported(text) => with_quoted(alloc, b"NotSupported", text),
        MirEvalError::InFunction(inner, trail) => {
            let inner = eval_error_text(alloc, db, inner.as_ref())?;
            in_function_text(alloc, inner, trail)
        }
        MirEvalError::ExecutionLimitExceeded => {
            Bytes::from_slice(alloc, b"ExecutionLimitExceeded")
        }
        MirEvalError::StackOverflow => Bytes::from_slice(alloc, b"StackOverflow"),
        MirEvalError::MemoryLimitExceeded => Bytes::from_slice(alloc, b"MemoryLimitExceeded"),
        MirEvalError::InternalError(text) => with_quoted(alloc, b"InternalError", text),
        MirEvalError::NoMemory => Bytes::from_slice(alloc, b"NoMemory"),
    }
}

/// The text of an error of constant evaluation, after the phase that it is from: lowering to MIR, or running the
/// MIR.
pub(crate) fn fault_text(
    alloc: Global,
    db: &HirDatabase,
    fault: &ConstEvalError,
) -> Result<Bytes, NoMemory>
    ensures { IfOk result (λ text. text ≡ fault_text db.now fault.now) }
{
    match fault {
        ConstEvalError::MirLowerError(error) => {
            let text = lower_error_text(alloc, error)?;
            joined(alloc, b"lower ", text.as_slice())
        }
        ConstEvalError::MirEvalError(error) => {
            let text = eval_error_text(alloc, db, error)?;
            joined(alloc, b"eval ", text.as_slice())
        }
        ConstEvalError::NoMemory => Bytes::from_slice(alloc, b"eval NoMemory"),
    }
}
