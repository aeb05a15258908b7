//! Whether everything that a type mentions passes a test.

ghost use Rattle.std.specs.Prelude.{◌≡◌, Bool};
ghost use Rattle.std.specs.List.{list_all};
ghost use Rattle.mentions.specs.Mentions.{adt_mention, callable_mention, general_mention, ty_mentions, const_mentions, arg_mentions, args_mentions, bound_mentions, memory_mentions};

use crate::mention::Mention;
use crate::test::MentionTest;
use types::{
    AdtId, CallableDefId, Const, GeneralConstId, GenericArg, GenericArgs, List, MemoryMap,
    TraitRef, Ty,
};

/// A struct, union or enum, as what is mentioned.
fn adt_mention(id: AdtId) -> Mention
    ensures { result ≡ adt_mention id }
{
    match id {
        AdtId::StructId(id) => Mention::Struct(id),
        AdtId::UnionId(id) => Mention::Union(id),
        AdtId::EnumId(id) => Mention::Enum(id),
    }
}

/// What a path can call, as what is mentioned.
fn callable_mention(id: CallableDefId) -> Mention
    ensures { result ≡ callable_mention id }
{
    match id {
        CallableDefId::FunctionId(id) => Mention::Function(id),
        CallableDefId::StructId(id) => Mention::Struct(id),
        CallableDefId::EnumVariantId(id) => Mention::Variant(id),
    }
}

/// What names a constant, as what is mentioned.
fn general_mention(id: GeneralConstId) -> Mention
    ensures { result ≡ general_mention id }
{
    match id {
        GeneralConstId::ConstId(id) => Mention::Const(id),
        GeneralConstId::StaticId(id) => Mention::Static(id),
    }
}

/// Whether everything that a type mentions passes.
#[cycle(mentions)]
#[tactic(auto, using(crate::proofs::Mentions::ty_layers), unfolding(crate::specs::Mentions::ty_mentions))]
pub fn all_in_ty<T: MentionTest>(test: &T, ty: &Ty) -> bool
    ensures { result ≡ list_all (T.passes test.now) (ty_mentions ty.now) }
{
    match ty {
        Ty::Bool => true,
        Ty::Char => true,
        Ty::Int(_) => true,
        Ty::Uint(_) => true,
        Ty::Float(_) => true,
        Ty::Str => true,
        Ty::Never => true,
        Ty::Tuple(fields) => {
            test.passes(Mention::Entries(fields.len())) && all_in_tys(test, fields)
        }
        Ty::Array(element, len) => {
            all_in_ty(test, element.as_ref()) && all_in_const(test, len.as_ref())
        }
        Ty::Slice(element) => all_in_ty(test, element.as_ref()),
        Ty::Ref(to, _) => all_in_ty(test, to.as_ref()),
        Ty::RawPtr(to, _) => all_in_ty(test, to.as_ref()),
        Ty::Adt(id, args) => test.passes(adt_mention(*id)) && all_in_args(test, args),
        Ty::FnDef(id, args) => test.passes(callable_mention(*id)) && all_in_args(test, args),
        Ty::FnPtr(params, ret) => all_in_tys(test, params) && all_in_ty(test, ret.as_ref()),
        Ty::Closure(id, args) => test.passes(Mention::Closure(*id)) && all_in_args(test, args),
        Ty::Dynamic(bounds) => all_in_bounds(test, bounds),
        Ty::Alias(id, args) => test.passes(Mention::Alias(*id)) && all_in_args(test, args),
        Ty::Param(param) => test.passes(Mention::TypeParam(param.id)),
        Ty::Error => test.passes(Mention::Error),
    }
}

/// Whether everything that some types mention passes.
#[cycle(mentions)]
fn all_in_tys<T: MentionTest>(test: &T, tys: &List<Ty>) -> bool
    ensures { result ≡ list_all (λ ty. list_all (T.passes test.now) (ty_mentions ty)) tys.now }
{
    let items = tys.as_slice();
    for ty in items {
        if !all_in_ty(test, ty) {
            return false;
        }
    }
    true
}

/// Whether everything that the bounds of a trait object mention passes.
#[cycle(mentions)]
fn all_in_bounds<T: MentionTest>(test: &T, bounds: &List<TraitRef>) -> bool
    ensures { result ≡ list_all (λ bound. list_all (T.passes test.now) (bound_mentions bound)) bounds.now }
{
    let items = bounds.as_slice();
    for bound in items {
        if !all_in_bound(test, bound) {
            return false;
        }
    }
    true
}

/// Whether everything that a trait with its arguments mentions passes.
#[cycle(mentions)]
#[tactic(auto, using(crate::proofs::Mentions::in_bound))]
fn all_in_bound<T: MentionTest>(test: &T, bound: &TraitRef) -> bool
    ensures { result ≡ list_all (T.passes test.now) (bound_mentions bound.now) }
{
    test.passes(Mention::Trait(bound.def)) && all_in_args(test, &bound.args)
}

/// Whether everything that generic arguments mention passes.
#[cycle(mentions)]
#[tactic(auto, using(crate::proofs::Mentions::in_args))]
pub fn all_in_args<T: MentionTest>(test: &T, args: &GenericArgs) -> bool
    ensures { result ≡ list_all (T.passes test.now) (args_mentions args.now) }
{
    test.passes(Mention::Entries(args.0.len())) && all_in_list(test, &args.0)
}

/// Whether everything that a list of generic arguments mentions passes.
#[cycle(mentions)]
fn all_in_list<T: MentionTest>(test: &T, args: &List<GenericArg>) -> bool
    ensures { result ≡ list_all (λ arg. list_all (T.passes test.now) (arg_mentions arg)) args.now }
{
    let items = args.as_slice();
    for arg in items {
        if !all_in_arg(test, arg) {
            return false;
        }
    }
    true
}

/// Whether everything that a generic argument mentions passes.
#[cycle(mentions)]
#[tactic(auto, using(crate::proofs::Mentions::arg_layers))]
fn all_in_arg<T: MentionTest>(test: &T, arg: &GenericArg) -> bool
    ensures { result ≡ list_all (T.passes test.now) (arg_mentions arg.now) }
{
    match arg {
        GenericArg::Ty(ty) => all_in_ty(test, ty),
        GenericArg::Konst(konst) => all_in_const(test, konst),
    }
}

/// Whether everything that a constant mentions passes.
#[cycle(mentions)]
#[tactic(auto, using(crate::proofs::Mentions::const_layers))]
fn all_in_const<T: MentionTest>(test: &T, konst: &Const) -> bool
    ensures { result ≡ list_all (T.passes test.now) (const_mentions konst.now) }
{
    match konst {
        Const::Value(value) => {
            all_in_ty(test, &value.ty) && all_in_memory(test, &value.memory_map)
        }
        Const::Param(param) => test.passes(Mention::ConstParam(param.id)),
        Const::Unevaluated(named) => {
            test.passes(general_mention(named.def)) && all_in_args(test, &named.args)
        }
        Const::Error => test.passes(Mention::Error),
    }
}

/// Whether everything that the types of vtables mention passes.
#[cycle(mentions)]
#[tactic(auto, using(crate::proofs::Mentions::in_complex), unfolding(crate::specs::Mentions::memory_mentions))]
fn all_in_memory<T: MentionTest>(test: &T, map: &MemoryMap) -> bool
    ensures { result ≡ list_all (T.passes test.now) (memory_mentions map.now) }
{
    match map {
        MemoryMap::Empty => true,
        MemoryMap::Simple(_) => true,
        MemoryMap::Complex(complex) => all_in_tys(test, &complex.vtable),
    }
}
