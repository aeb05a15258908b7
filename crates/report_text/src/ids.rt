//! The texts of the ids of items, of nodes of a body and of MIR locals: a word for what has the id, and a
//! number.

ghost use Rattle.std.specs.Prelude.{◌≡◌, IfOk};
ghost use Rattle.report_text.specs.Ids.{function_text, def_text, generic_param_text, trait_text, crate_text, closure_text, callee_text, local_text, span_text};

use crate::texts::numbered;
use either::Either;
use mir::{LocalId, MirSpan};
use std::alloc::Global;
use world::{
    Bytes, Crate, DefWithBodyId, FunctionId, GenericParamId, InternedClosureId, NoMemory, TraitId,
};

/// The text of a function.
pub(crate) fn function_text(alloc: Global, id: FunctionId) -> Result<Bytes, NoMemory>
    ensures { IfOk result (λ text. text ≡ function_text id) }
{
    numbered(alloc, b"fn#", id.0 as u64)
}

/// The text of a definition with a body.
pub(crate) fn def_text(alloc: Global, def: DefWithBodyId) -> Result<Bytes, NoMemory>
    ensures { IfOk result (λ text. text ≡ def_text def) }
{
    match def {
        DefWithBodyId::FunctionId(id) => function_text(alloc, id),
        DefWithBodyId::StaticId(id) => numbered(alloc, b"static#", id.0 as u64),
        DefWithBodyId::ConstId(id) => numbered(alloc, b"const#", id.0 as u64),
        DefWithBodyId::VariantId(id) => numbered(alloc, b"variant#", id.0 as u64),
    }
}

/// The text of a generic parameter.
pub(crate) fn generic_param_text(alloc: Global, id: GenericParamId) -> Result<Bytes, NoMemory>
    ensures { IfOk result (λ text. text ≡ generic_param_text id) }
{
    match id {
        GenericParamId::TypeParamId(id) => numbered(alloc, b"typaram#", id.0 as u64),
        GenericParamId::ConstParamId(id) => numbered(alloc, b"constparam#", id.0 as u64),
    }
}

/// The text of a trait.
pub(crate) fn trait_text(alloc: Global, id: TraitId) -> Result<Bytes, NoMemory>
    ensures { IfOk result (λ text. text ≡ trait_text id) }
{
    numbered(alloc, b"trait#", id.0 as u64)
}

/// The text of a crate.
pub(crate) fn crate_text(alloc: Global, krate: Crate) -> Result<Bytes, NoMemory>
    ensures { IfOk result (λ text. text ≡ crate_text krate) }
{
    numbered(alloc, b"crate#", krate.0 as u64)
}

/// The text of a closure.
pub(crate) fn closure_text(alloc: Global, id: InternedClosureId) -> Result<Bytes, NoMemory>
    ensures { IfOk result (λ text. text ≡ closure_text id) }
{
    numbered(alloc, b"closure#", id.0 as u64)
}

/// The text of what a call enters: a function or a closure.
pub(crate) fn callee_text(
    alloc: Global,
    callee: Either<FunctionId, InternedClosureId>,
) -> Result<Bytes, NoMemory>
    ensures { IfOk result (λ text. text ≡ callee_text callee) }
{
    match callee {
        Either::Left(id) => function_text(alloc, id),
        Either::Right(id) => closure_text(alloc, id),
    }
}

/// The text of a local of a MIR body.
pub(crate) fn local_text(alloc: Global, id: LocalId) -> Result<Bytes, NoMemory>
    ensures { IfOk result (λ text. text ≡ local_text id) }
{
    numbered(alloc, b"local#", id.0 as u64)
}

/// The text of a place in the source, which is a node of the body that the MIR was lowered from.
pub(crate) fn span_text(alloc: Global, span: MirSpan) -> Result<Bytes, NoMemory>
    ensures { IfOk result (λ text. text ≡ span_text span) }
{
    match span {
        MirSpan::ExprId(id) => numbered(alloc, b"expr#", id.0 as u64),
        MirSpan::PatId(id) => numbered(alloc, b"pat#", id.0 as u64),
        MirSpan::BindingId(id) => numbered(alloc, b"binding#", id.0 as u64),
        MirSpan::Unknown => Bytes::from_slice(alloc, b"unknown"),
    }
}
