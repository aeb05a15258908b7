//! Types, generic arguments and constants without aliases: a parameter stands in the place of each alias,
//! with the number at which the alias's normalized type stands behind the generic arguments.
ghost use Rattle.std.specs.Prelude.{◌≡◌, true, IfOk, IsErrOf, None, OnOk, map};
ghost use Rattle.std.specs.Option.{is_some, option_and_then};
ghost use Rattle.check_instances.specs.Comparisons.{arg_at, args_at, bound_at, complex_at, const_at, map_at, ty_at, unevaluated_at, value_at};
ghost use Rattle.check_instances.specs.Instances.{all_there, arg_instance, args_instance, bound_instance, const_instance, normal_type, ty_instance};
ghost use Rattle.check_instances.specs.Parts.{complex_instance, map_instance, unevaluated_instance, value_instance};

use crate::keys::normal_place;
use crate::numbers::{open_const_param, open_param, param_behind};
use crate::unopened::Unopened;
use std::alloc::Global;
use types::{
    AliasId, Box, ComplexMemoryMap, Const, GenericArg, GenericArgs, List, MemoryMap, Table,
    TraitRef, TryClone, Ty, UnevaluatedConst, ValueConst,
};

/// The rows of normalized types.
type Normals = Table<(AliasId, GenericArgs), (AliasId, GenericArgs, Ty)>;

/// A type without aliases.
#[cycle(openings)]
#[tactic(auto, using(crate::proofs::Layers::type_layers, crate::proofs::Opened::there, crate::proofs::Opened::param_stays))]
pub(crate) fn open_ty(
    alloc: Global,
    ty: &Ty,
    normals: &Normals,
    args: &GenericArgs,
) -> Result<Ty, Unopened>
    ensures same { IfOk result (λ made. ty_at normals.now args.now made ≡ ty_instance normals.now args.now ty.now) }
    ensures there { OnOk result (is_some (ty_instance normals.now args.now ty.now) ≡ true) }
    ensures missing { IsErrOf result Unopened.Missing → ty_instance normals.now args.now ty.now ≡ None }
{
    match ty {
        Ty::Bool => Ok(Ty::Bool),
        Ty::Char => Ok(Ty::Char),
        Ty::Int(int) => Ok(Ty::Int(*int)),
        Ty::Uint(uint) => Ok(Ty::Uint(*uint)),
        Ty::Float(float) => Ok(Ty::Float(*float)),
        Ty::Str => Ok(Ty::Str),
        Ty::Never => Ok(Ty::Never),
        Ty::Tuple(fields) => Ok(Ty::Tuple(open_tys(alloc, fields, normals, args)?)),
        Ty::Array(element, len) => {
            let element = open_box(alloc, element, normals, args)?;
            let len = open_len(alloc, len, normals, args)?;
            Ok(Ty::Array(element, len))
        }
        Ty::Slice(element) => Ok(Ty::Slice(open_box(alloc, element, normals, args)?)),
        Ty::Ref(to, mutability) => {
            let to = open_box(alloc, to, normals, args)?;
            Ok(Ty::Ref(to, *mutability))
        }
        Ty::RawPtr(to, mutability) => {
            let to = open_box(alloc, to, normals, args)?;
            Ok(Ty::RawPtr(to, *mutability))
        }
        Ty::Adt(id, own) => Ok(Ty::Adt(*id, open_args(alloc, own, normals, args)?)),
        Ty::FnDef(id, own) => Ok(Ty::FnDef(*id, open_args(alloc, own, normals, args)?)),
        Ty::FnPtr(params, ret) => {
            let params = open_tys(alloc, params, normals, args)?;
            let ret = open_box(alloc, ret, normals, args)?;
            Ok(Ty::FnPtr(params, ret))
        }
        Ty::Closure(id, own) => Ok(Ty::Closure(*id, open_args(alloc, own, normals, args)?)),
        Ty::Dynamic(bounds) => Ok(Ty::Dynamic(open_bounds(alloc, bounds, normals, args)?)),
        Ty::Alias(id, own) => open_alias(alloc, *id, own, normals, args),
        Ty::Param(param) => open_param(*param, args),
        Ty::Error => Ok(Ty::Error),
    }
}

/// A type on the heap without aliases.
#[cycle(openings)]
fn open_box(
    alloc: Global,
    ty: &Box<Ty>,
    normals: &Normals,
    args: &GenericArgs,
) -> Result<Box<Ty>, Unopened>
    ensures same { IfOk result (λ made. ty_at normals.now args.now made ≡ ty_instance normals.now args.now ty.now) }
    ensures there { OnOk result (is_some (ty_instance normals.now args.now ty.now) ≡ true) }
    ensures missing { IsErrOf result Unopened.Missing → ty_instance normals.now args.now ty.now ≡ None }
{
    let made = open_ty(alloc, ty.as_ref(), normals, args)?;
    Ok(Box::new(alloc, made)?)
}

/// A constant on the heap without aliases.
#[cycle(openings)]
fn open_len(
    alloc: Global,
    len: &Box<Const>,
    normals: &Normals,
    args: &GenericArgs,
) -> Result<Box<Const>, Unopened>
    ensures same { IfOk result (λ made. const_at normals.now args.now made ≡ const_instance normals.now args.now len.now) }
    ensures there { OnOk result (is_some (const_instance normals.now args.now len.now) ≡ true) }
    ensures missing { IsErrOf result Unopened.Missing → const_instance normals.now args.now len.now ≡ None }
{
    let made = open_const(alloc, len.as_ref(), normals, args)?;
    Ok(Box::new(alloc, made)?)
}

/// The normalized type of an alias at its own arguments, which are instantiated before it.
#[cycle(openings)]
#[tactic(auto, using(crate::proofs::Opened::alias_same, crate::proofs::Opened::alias_there, crate::proofs::Opened::alias_missing))]
fn open_alias(
    alloc: Global,
    id: AliasId,
    own: &GenericArgs,
    normals: &Normals,
    args: &GenericArgs,
) -> Result<Ty, Unopened>
    ensures same { IfOk result (λ made. ty_at normals.now args.now made ≡ option_and_then (normal_type normals.now id) (args_instance normals.now args.now own.now)) }
    ensures there { OnOk result (is_some (option_and_then (normal_type normals.now id) (args_instance normals.now args.now own.now)) ≡ true) }
    ensures missing { IsErrOf result Unopened.Missing → option_and_then (normal_type normals.now id) (args_instance normals.now args.now own.now) ≡ None }
{
    let own = open_args(alloc, own, normals, args)?;
    match normal_place(id, &own, normals, args) {
        Some(place) => param_behind(args, place),
        None => Err(Unopened::Missing),
    }
}

/// Types without aliases.
#[cycle(openings)]
fn open_tys(
    alloc: Global,
    tys: &List<Ty>,
    normals: &Normals,
    args: &GenericArgs,
) -> Result<List<Ty>, Unopened>
    ensures same { IfOk result (λ made. all_there (map (ty_at normals.now args.now) made) ≡ all_there (map (ty_instance normals.now args.now) tys.now)) }
    ensures there { OnOk result (is_some (all_there (map (ty_instance normals.now args.now) tys.now)) ≡ true) }
    ensures missing { IsErrOf result Unopened.Missing → all_there (map (ty_instance normals.now args.now) tys.now) ≡ None }
{
    let mut made = List::new(alloc);
    let items = tys.as_slice();
    for ty in items {
        made.push(open_ty(alloc, ty, normals, args)?)?;
    }
    Ok(made)
}

/// The bounds of a trait object without aliases.
#[cycle(openings)]
fn open_bounds(
    alloc: Global,
    bounds: &List<TraitRef>,
    normals: &Normals,
    args: &GenericArgs,
) -> Result<List<TraitRef>, Unopened>
    ensures same { IfOk result (λ made. all_there (map (bound_at normals.now args.now) made) ≡ all_there (map (bound_instance normals.now args.now) bounds.now)) }
    ensures there { OnOk result (is_some (all_there (map (bound_instance normals.now args.now) bounds.now)) ≡ true) }
    ensures missing { IsErrOf result Unopened.Missing → all_there (map (bound_instance normals.now args.now) bounds.now) ≡ None }
{
    let mut made = List::new(alloc);
    let items = bounds.as_slice();
    for bound in items {
        made.push(open_bound(alloc, bound, normals, args)?)?;
    }
    Ok(made)
}

/// A trait with its arguments, without aliases.
#[cycle(openings)]
#[tactic(auto, using(crate::proofs::Layers::bound_is, crate::proofs::Opened::there))]
fn open_bound(
    alloc: Global,
    bound: &TraitRef,
    normals: &Normals,
    args: &GenericArgs,
) -> Result<TraitRef, Unopened>
    ensures same { IfOk result (λ made. bound_at normals.now args.now made ≡ bound_instance normals.now args.now bound.now) }
    ensures there { OnOk result (is_some (bound_instance normals.now args.now bound.now) ≡ true) }
    ensures missing { IsErrOf result Unopened.Missing → bound_instance normals.now args.now bound.now ≡ None }
{
    let own = open_args(alloc, &bound.args, normals, args)?;
    Ok(TraitRef {
        def: bound.def,
        args: own,
    })
}

/// Generic arguments without aliases.
#[cycle(openings)]
fn open_args(
    alloc: Global,
    own: &GenericArgs,
    normals: &Normals,
    args: &GenericArgs,
) -> Result<GenericArgs, Unopened>
    ensures same { IfOk result (λ made. args_at normals.now args.now made ≡ args_instance normals.now args.now own.now) }
    ensures there { OnOk result (is_some (args_instance normals.now args.now own.now) ≡ true) }
    ensures missing { IsErrOf result Unopened.Missing → args_instance normals.now args.now own.now ≡ None }
{
    let mut made = List::new(alloc);
    let items = own.0.as_slice();
    for arg in items {
        made.push(open_arg(alloc, arg, normals, args)?)?;
    }
    Ok(GenericArgs(made))
}

/// A generic argument without aliases.
#[cycle(openings)]
#[tactic(auto, using(crate::proofs::Layers::arg_layers, crate::proofs::Opened::there))]
fn open_arg(
    alloc: Global,
    arg: &GenericArg,
    normals: &Normals,
    args: &GenericArgs,
) -> Result<GenericArg, Unopened>
    ensures same { IfOk result (λ made. arg_at normals.now args.now made ≡ arg_instance normals.now args.now arg.now) }
    ensures there { OnOk result (is_some (arg_instance normals.now args.now arg.now) ≡ true) }
    ensures missing { IsErrOf result Unopened.Missing → arg_instance normals.now args.now arg.now ≡ None }
{
    match arg {
        GenericArg::Ty(ty) => Ok(GenericArg::Ty(open_ty(alloc, ty, normals, args)?)),
        GenericArg::Konst(konst) => {
            let konst = open_const(alloc, konst, normals, args)?;
            Ok(GenericArg::Konst(konst))
        }
    }
}

/// A constant without aliases.
#[cycle(openings)]
#[tactic(auto, using(crate::proofs::Layers::const_layers, crate::proofs::Opened::there, crate::proofs::Opened::const_param_stays))]
fn open_const(
    alloc: Global,
    konst: &Const,
    normals: &Normals,
    args: &GenericArgs,
) -> Result<Const, Unopened>
    ensures same { IfOk result (λ made. const_at normals.now args.now made ≡ const_instance normals.now args.now konst.now) }
    ensures there { OnOk result (is_some (const_instance normals.now args.now konst.now) ≡ true) }
    ensures missing { IsErrOf result Unopened.Missing → const_instance normals.now args.now konst.now ≡ None }
{
    match konst {
        Const::Value(value) => Ok(Const::Value(open_value(alloc, value, normals, args)?)),
        Const::Param(param) => open_const_param(*param, args),
        Const::Unevaluated(named) => {
            let named = open_unevaluated(alloc, named, normals, args)?;
            Ok(Const::Unevaluated(named))
        }
        Const::Error => Ok(Const::Error),
    }
}

/// A constant by its name, without aliases.
#[cycle(openings)]
#[tactic(auto, using(crate::proofs::Layers::unevaluated_is, crate::proofs::Opened::there))]
fn open_unevaluated(
    alloc: Global,
    named: &UnevaluatedConst,
    normals: &Normals,
    args: &GenericArgs,
) -> Result<UnevaluatedConst, Unopened>
    ensures same { IfOk result (λ made. unevaluated_at normals.now args.now made ≡ unevaluated_instance normals.now args.now named.now) }
    ensures there { OnOk result (is_some (unevaluated_instance normals.now args.now named.now) ≡ true) }
    ensures missing { IsErrOf result Unopened.Missing → unevaluated_instance normals.now args.now named.now ≡ None }
{
    let own = open_args(alloc, &named.args, normals, args)?;
    Ok(UnevaluatedConst {
        def: named.def,
        args: own,
    })
}

/// A constant's value without aliases.
#[cycle(openings)]
#[tactic(auto, using(crate::proofs::Layers::value_is, crate::proofs::Opened::there))]
fn open_value(
    alloc: Global,
    value: &ValueConst,
    normals: &Normals,
    args: &GenericArgs,
) -> Result<ValueConst, Unopened>
    ensures same { IfOk result (λ made. value_at normals.now args.now made ≡ value_instance normals.now args.now value.now) }
    ensures there { OnOk result (is_some (value_instance normals.now args.now value.now) ≡ true) }
    ensures missing { IsErrOf result Unopened.Missing → value_instance normals.now args.now value.now ≡ None }
{
    let ty = open_ty(alloc, &value.ty, normals, args)?;
    let memory_map = open_map(alloc, &value.memory_map, normals, args)?;
    let memory = value.memory.try_clone(alloc)?;
    Ok(ValueConst {
        ty,
        memory,
        memory_map,
    })
}

/// The memory that a constant refers to, without aliases.
#[cycle(openings)]
#[tactic(auto, using(crate::proofs::Layers::map_layers, crate::proofs::Opened::there))]
fn open_map(
    alloc: Global,
    map: &MemoryMap,
    normals: &Normals,
    args: &GenericArgs,
) -> Result<MemoryMap, Unopened>
    ensures same { IfOk result (λ made. map_at normals.now args.now made ≡ map_instance normals.now args.now map.now) }
    ensures there { OnOk result (is_some (map_instance normals.now args.now map.now) ≡ true) }
    ensures missing { IsErrOf result Unopened.Missing → map_instance normals.now args.now map.now ≡ None }
{
    match map {
        MemoryMap::Empty => Ok(MemoryMap::Empty),
        MemoryMap::Simple(bytes) => Ok(MemoryMap::Simple(bytes.try_clone(alloc)?)),
        MemoryMap::Complex(complex) => {
            let complex = open_complex(alloc, complex, normals, args)?;
            Ok(MemoryMap::Complex(complex))
        }
    }
}

/// Bytes at several addresses, and the types of vtable ids without aliases.
#[cycle(openings)]
#[tactic(auto, using(crate::proofs::Layers::complex_is, crate::proofs::Opened::there))]
fn open_complex(
    alloc: Global,
    map: &ComplexMemoryMap,
    normals: &Normals,
    args: &GenericArgs,
) -> Result<ComplexMemoryMap, Unopened>
    ensures same { IfOk result (λ made. complex_at normals.now args.now made ≡ complex_instance normals.now args.now map.now) }
    ensures there { OnOk result (is_some (complex_instance normals.now args.now map.now) ≡ true) }
    ensures missing { IsErrOf result Unopened.Missing → complex_instance normals.now args.now map.now ≡ None }
{
    let vtable = open_tys(alloc, &map.vtable, normals, args)?;
    let memory = map.memory.try_clone(alloc)?;
    Ok(ComplexMemoryMap { memory, vtable })
}
