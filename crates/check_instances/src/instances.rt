//! Types, generic arguments and constants at generic arguments.
ghost use Rattle.std.specs.Prelude.{◌≡◌, IfOk, IsErrOf, None, Some, map};
ghost use Rattle.std.specs.Option.{option_and_then};
ghost use Rattle.check_instances.specs.Instances.{all_there, arg_instance, args_instance, bound_instance, const_instance, normal_type, ty_instance};
ghost use Rattle.check_instances.specs.Parts.{complex_instance, map_instance, unevaluated_instance, value_instance};

use crate::NoInstance;
use crate::arguments::{const_argument, normal_type, type_argument};
use std::alloc::Global;
use types::{
    AliasId, Box, ComplexMemoryMap, Const, GenericArg, GenericArgs, List, MemoryMap, Table,
    TraitRef, TryClone, Ty, UnevaluatedConst, ValueConst,
};

/// The rows of normalized types.
type Normals = Table<(AliasId, GenericArgs), (AliasId, GenericArgs, Ty)>;

/// A type at generic arguments.
#[cycle(instances)]
#[tactic(auto, using(crate::proofs::Layers::type_layers))]
fn instance_of_ty(
    alloc: Global,
    ty: &Ty,
    normals: &Normals,
    args: &GenericArgs,
) -> Result<Ty, NoInstance>
    ensures given { IfOk result (λ made. ty_instance normals.now args.now ty.now ≡ Some made) }
    ensures missing { IsErrOf result NoInstance.Missing → ty_instance normals.now args.now ty.now ≡ None }
{
    match ty {
        Ty::Bool => Ok(Ty::Bool),
        Ty::Char => Ok(Ty::Char),
        Ty::Int(int) => Ok(Ty::Int(*int)),
        Ty::Uint(uint) => Ok(Ty::Uint(*uint)),
        Ty::Float(float) => Ok(Ty::Float(*float)),
        Ty::Str => Ok(Ty::Str),
        Ty::Never => Ok(Ty::Never),
        Ty::Tuple(fields) => Ok(Ty::Tuple(instances_of_tys(alloc, fields, normals, args)?)),
        Ty::Array(element, len) => {
            let element = instance_of_box(alloc, element, normals, args)?;
            let len = instance_of_len(alloc, len, normals, args)?;
            Ok(Ty::Array(element, len))
        }
        Ty::Slice(element) => Ok(Ty::Slice(instance_of_box(alloc, element, normals, args)?)),
        Ty::Ref(to, mutability) => {
            let to = instance_of_box(alloc, to, normals, args)?;
            Ok(Ty::Ref(to, *mutability))
        }
        Ty::RawPtr(to, mutability) => {
            let to = instance_of_box(alloc, to, normals, args)?;
            Ok(Ty::RawPtr(to, *mutability))
        }
        Ty::Adt(id, own) => Ok(Ty::Adt(*id, instance_of_args(alloc, own, normals, args)?)),
        Ty::FnDef(id, own) => Ok(Ty::FnDef(*id, instance_of_args(alloc, own, normals, args)?)),
        Ty::FnPtr(params, ret) => {
            let params = instances_of_tys(alloc, params, normals, args)?;
            let ret = instance_of_box(alloc, ret, normals, args)?;
            Ok(Ty::FnPtr(params, ret))
        }
        Ty::Closure(id, own) => Ok(Ty::Closure(*id, instance_of_args(alloc, own, normals, args)?)),
        Ty::Dynamic(bounds) => Ok(Ty::Dynamic(instances_of_bounds(alloc, bounds, normals, args)?)),
        Ty::Alias(id, own) => instance_of_alias(alloc, *id, own, normals, args),
        Ty::Param(param) => type_argument(alloc, args, param.index),
        Ty::Error => Ok(Ty::Error),
    }
}

/// A type on the heap at generic arguments.
#[cycle(instances)]
fn instance_of_box(
    alloc: Global,
    ty: &Box<Ty>,
    normals: &Normals,
    args: &GenericArgs,
) -> Result<Box<Ty>, NoInstance>
    ensures given { IfOk result (λ made. ty_instance normals.now args.now ty.now ≡ Some made) }
    ensures missing { IsErrOf result NoInstance.Missing → ty_instance normals.now args.now ty.now ≡ None }
{
    let made = instance_of_ty(alloc, ty.as_ref(), normals, args)?;
    Ok(Box::new(alloc, made)?)
}

/// A constant on the heap at generic arguments.
#[cycle(instances)]
fn instance_of_len(
    alloc: Global,
    len: &Box<Const>,
    normals: &Normals,
    args: &GenericArgs,
) -> Result<Box<Const>, NoInstance>
    ensures given { IfOk result (λ made. const_instance normals.now args.now len.now ≡ Some made) }
    ensures missing { IsErrOf result NoInstance.Missing → const_instance normals.now args.now len.now ≡ None }
{
    let made = instance_of_const(alloc, len.as_ref(), normals, args)?;
    Ok(Box::new(alloc, made)?)
}

/// The normalized type of an alias at its own arguments, which are instantiated before it.
#[cycle(instances)]
fn instance_of_alias(
    alloc: Global,
    id: AliasId,
    own: &GenericArgs,
    normals: &Normals,
    args: &GenericArgs,
) -> Result<Ty, NoInstance>
    ensures given { IfOk result (λ made. option_and_then (normal_type normals.now id) (args_instance normals.now args.now own.now) ≡ Some made) }
    ensures missing { IsErrOf result NoInstance.Missing → option_and_then (normal_type normals.now id) (args_instance normals.now args.now own.now) ≡ None }
{
    let own = instance_of_args(alloc, own, normals, args)?;
    normal_type(alloc, normals, id, &own)
}

/// Types at generic arguments.
#[cycle(instances)]
fn instances_of_tys(
    alloc: Global,
    tys: &List<Ty>,
    normals: &Normals,
    args: &GenericArgs,
) -> Result<List<Ty>, NoInstance>
    ensures given { IfOk result (λ made. all_there (map (ty_instance normals.now args.now) tys.now) ≡ Some made) }
    ensures missing { IsErrOf result NoInstance.Missing → all_there (map (ty_instance normals.now args.now) tys.now) ≡ None }
{
    let mut made = List::new(alloc);
    let items = tys.as_slice();
    for ty in items {
        made.push(instance_of_ty(alloc, ty, normals, args)?)?;
    }
    Ok(made)
}

/// The bounds of a trait object at generic arguments.
#[cycle(instances)]
fn instances_of_bounds(
    alloc: Global,
    bounds: &List<TraitRef>,
    normals: &Normals,
    args: &GenericArgs,
) -> Result<List<TraitRef>, NoInstance>
    ensures given { IfOk result (λ made. all_there (map (bound_instance normals.now args.now) bounds.now) ≡ Some made) }
    ensures missing { IsErrOf result NoInstance.Missing → all_there (map (bound_instance normals.now args.now) bounds.now) ≡ None }
{
    let mut made = List::new(alloc);
    let items = bounds.as_slice();
    for bound in items {
        made.push(instance_of_bound(alloc, bound, normals, args)?)?;
    }
    Ok(made)
}

/// A trait with its arguments, at generic arguments.
#[cycle(instances)]
#[tactic(auto, using(crate::proofs::Layers::bound_is))]
fn instance_of_bound(
    alloc: Global,
    bound: &TraitRef,
    normals: &Normals,
    args: &GenericArgs,
) -> Result<TraitRef, NoInstance>
    ensures given { IfOk result (λ made. bound_instance normals.now args.now bound.now ≡ Some made) }
    ensures missing { IsErrOf result NoInstance.Missing → bound_instance normals.now args.now bound.now ≡ None }
{
    let own = instance_of_args(alloc, &bound.args, normals, args)?;
    Ok(TraitRef {
        def: bound.def,
        args: own,
    })
}

/// Generic arguments at generic arguments.
#[cycle(instances)]
fn instance_of_args(
    alloc: Global,
    own: &GenericArgs,
    normals: &Normals,
    args: &GenericArgs,
) -> Result<GenericArgs, NoInstance>
    ensures given { IfOk result (λ made. args_instance normals.now args.now own.now ≡ Some made) }
    ensures missing { IsErrOf result NoInstance.Missing → args_instance normals.now args.now own.now ≡ None }
{
    let mut made = List::new(alloc);
    let items = own.0.as_slice();
    for arg in items {
        made.push(instance_of_arg(alloc, arg, normals, args)?)?;
    }
    Ok(GenericArgs(made))
}

/// A generic argument at generic arguments.
#[cycle(instances)]
#[tactic(auto, using(crate::proofs::Layers::arg_layers))]
fn instance_of_arg(
    alloc: Global,
    arg: &GenericArg,
    normals: &Normals,
    args: &GenericArgs,
) -> Result<GenericArg, NoInstance>
    ensures given { IfOk result (λ made. arg_instance normals.now args.now arg.now ≡ Some made) }
    ensures missing { IsErrOf result NoInstance.Missing → arg_instance normals.now args.now arg.now ≡ None }
{
    match arg {
        GenericArg::Ty(ty) => Ok(GenericArg::Ty(instance_of_ty(alloc, ty, normals, args)?)),
        GenericArg::Konst(konst) => {
            let konst = instance_of_const(alloc, konst, normals, args)?;
            Ok(GenericArg::Konst(konst))
        }
    }
}

/// A constant at generic arguments.
#[cycle(instances)]
#[tactic(auto, using(crate::proofs::Layers::const_layers))]
fn instance_of_const(
    alloc: Global,
    konst: &Const,
    normals: &Normals,
    args: &GenericArgs,
) -> Result<Const, NoInstance>
    ensures given { IfOk result (λ made. const_instance normals.now args.now konst.now ≡ Some made) }
    ensures missing { IsErrOf result NoInstance.Missing → const_instance normals.now args.now konst.now ≡ None }
{
    match konst {
        Const::Value(value) => Ok(Const::Value(instance_of_value(alloc, value, normals, args)?)),
        Const::Param(param) => const_argument(alloc, args, param.index),
        Const::Unevaluated(named) => {
            let named = instance_of_unevaluated(alloc, named, normals, args)?;
            Ok(Const::Unevaluated(named))
        }
        Const::Error => Ok(Const::Error),
    }
}

/// A constant by its name, at generic arguments.
#[cycle(instances)]
#[tactic(auto, using(crate::proofs::Layers::unevaluated_is))]
fn instance_of_unevaluated(
    alloc: Global,
    named: &UnevaluatedConst,
    normals: &Normals,
    args: &GenericArgs,
) -> Result<UnevaluatedConst, NoInstance>
    ensures given { IfOk result (λ made. unevaluated_instance normals.now args.now named.now ≡ Some made) }
    ensures missing { IsErrOf result NoInstance.Missing → unevaluated_instance normals.now args.now named.now ≡ None }
{
    let own = instance_of_args(alloc, &named.args, normals, args)?;
    Ok(UnevaluatedConst {
        def: named.def,
        args: own,
    })
}

/// A constant's value at generic arguments.
#[cycle(instances)]
#[tactic(auto, using(crate::proofs::Layers::value_is))]
fn instance_of_value(
    alloc: Global,
    value: &ValueConst,
    normals: &Normals,
    args: &GenericArgs,
) -> Result<ValueConst, NoInstance>
    ensures given { IfOk result (λ made. value_instance normals.now args.now value.now ≡ Some made) }
    ensures missing { IsErrOf result NoInstance.Missing → value_instance normals.now args.now value.now ≡ None }
{
    let ty = instance_of_ty(alloc, &value.ty, normals, args)?;
    let memory_map = instance_of_map(alloc, &value.memory_map, normals, args)?;
    let memory = value.memory.try_clone(alloc)?;
    Ok(ValueConst {
        ty,
        memory,
        memory_map,
    })
}

/// The memory that a constant refers to, at generic arguments.
#[cycle(instances)]
#[tactic(auto, using(crate::proofs::Layers::map_layers))]
fn instance_of_map(
    alloc: Global,
    map: &MemoryMap,
    normals: &Normals,
    args: &GenericArgs,
) -> Result<MemoryMap, NoInstance>
    ensures given { IfOk result (λ made. map_instance normals.now args.now map.now ≡ Some made) }
    ensures missing { IsErrOf result NoInstance.Missing → map_instance normals.now args.now map.now ≡ None }
{
    match map {
        MemoryMap::Empty => Ok(MemoryMap::Empty),
        MemoryMap::Simple(bytes) => Ok(MemoryMap::Simple(bytes.try_clone(alloc)?)),
        MemoryMap::Complex(complex) => {
            let complex = instance_of_complex(alloc, complex, normals, args)?;
            Ok(MemoryMap::Complex(complex))
        }
    }
}

/// Bytes at several addresses, and the types of vtable ids at generic arguments.
#[cycle(instances)]
#[tactic(auto, using(crate::proofs::Layers::complex_is))]
fn instance_of_complex(
    alloc: Global,
    map: &ComplexMemoryMap,
    normals: &Normals,
    args: &GenericArgs,
) -> Result<ComplexMemoryMap, NoInstance>
    ensures given { IfOk result (λ made. complex_instance normals.now args.now map.now ≡ Some made) }
    ensures missing { IsErrOf result NoInstance.Missing → complex_instance normals.now args.now map.now ≡ None }
{
    let vtable = instances_of_tys(alloc, &map.vtable, normals, args)?;
    let memory = map.memory.try_clone(alloc)?;
    Ok(ComplexMemoryMap { memory, vtable })
}

/// A type at generic arguments: each parameter is replaced by its argument, and each alias by its
/// normalized type. The error is `Missing` if an argument is missing or of the other kind, or a normalized
/// type is missing, and `NoMemory` for want of memory.
pub fn ty_instance(
    alloc: Global,
    normals: &Normals,
    args: &GenericArgs,
    ty: &Ty,
) -> Result<Ty, NoInstance>
    ensures given { IfOk result (λ made. ty_instance normals.now args.now ty.now ≡ Some made) }
    ensures missing { IsErrOf result NoInstance.Missing → ty_instance normals.now args.now ty.now ≡ None }
{
    instance_of_ty(alloc, ty, normals, args)
}

/// Generic arguments at generic arguments, as `ty_instance` gives a type, with the same errors.
pub fn args_instance(
    alloc: Global,
    normals: &Normals,
    args: &GenericArgs,
    own: &GenericArgs,
) -> Result<GenericArgs, NoInstance>
    ensures given { IfOk result (λ made. args_instance normals.now args.now own.now ≡ Some made) }
    ensures missing { IsErrOf result NoInstance.Missing → args_instance normals.now args.now own.now ≡ None }
{
    instance_of_args(alloc, own, normals, args)
}
