//! How types at generic arguments compare with types, without being made. A parameter whose index is past
//! the arguments names a normalized type. There are no aliases: a type with one has no instance here.
ghost use Rattle.std.specs.Prelude.{[], map};
ghost use Rattle.std.specs.Cmp.Lexicographic.{slice_cmp};
ghost use Rattle.std.specs.Ordering.{ordering_then};
ghost use Rattle.types.specs.Orders.{args_cmp, ty_cmp};
ghost use Rattle.check_instances.specs.Comparisons.{Compares, arg_at, arg_cmp, args_at, bound_at, bound_cmp, complex_at, complex_cmp, const_at, const_cmp, map_at, map_cmp, ty_at, unevaluated_at, unevaluated_cmp, value_at, value_cmp};
ghost use Rattle.check_instances.specs.Instances.{all_there};

use crate::behind::{const_behind, type_behind};
use crate::variants::{arg_variants, const_variants, map_variants, ty_variants};
use std::cmp::Ordering;
use types::{
    AliasId, ComplexMemoryMap, Const, GenericArg, GenericArgs, List, MemoryMap, Table, TraitRef,
    Ty, UnevaluatedConst, ValueConst,
};

/// The rows of normalized types.
type Normals = Table<(AliasId, GenericArgs), (AliasId, GenericArgs, Ty)>;

/// How a type at generic arguments compares with a type.
#[cycle(comparisons)]
pub(crate) fn compare_ty(ty: &Ty, key: &Ty, normals: &Normals, args: &GenericArgs) -> Ordering
    ensures { Compares (ty_at normals.now args.now ty.now) (λ made. ty_cmp made key.now) result }
{
    match ty {
        Ty::Bool => ty.cmp(key),
        Ty::Char => ty.cmp(key),
        Ty::Int(_) => ty.cmp(key),
        Ty::Uint(_) => ty.cmp(key),
        Ty::Float(_) => ty.cmp(key),
        Ty::Str => ty.cmp(key),
        Ty::Never => ty.cmp(key),
        Ty::Tuple(fields) => match key {
            Ty::Tuple(keys) => compare_tys(fields, keys, normals, args),
            _ => ty_variants(ty, key),
        },
        Ty::Array(element, len) => match key {
            Ty::Array(key, key_len) => {
                let first = compare_ty(element.as_ref(), key.as_ref(), normals, args);
                compare_const_after(len.as_ref(), key_len.as_ref(), first, normals, args)
            }
            _ => ty_variants(ty, key),
        },
        Ty::Slice(element) => match key {
            Ty::Slice(key) => compare_ty(element.as_ref(), key.as_ref(), normals, args),
            _ => ty_variants(ty, key),
        },
        Ty::Ref(to, mutability) => match key {
            Ty::Ref(key, key_mutability) => {
                let first = compare_ty(to.as_ref(), key.as_ref(), normals, args);
                first.then(mutability.cmp(key_mutability))
            }
            _ => ty_variants(ty, key),
        },
        Ty::RawPtr(to, mutability) => match key {
            Ty::RawPtr(key, key_mutability) => {
                let first = compare_ty(to.as_ref(), key.as_ref(), normals, args);
                first.then(mutability.cmp(key_mutability))
            }
            _ => ty_variants(ty, key),
        },
        Ty::Adt(id, own) => match key {
            Ty::Adt(key_id, key) => { compare_args_after(own, key, id.cmp(key_id), normals, args) }
            _ => ty_variants(ty, key),
        },
        Ty::FnDef(id, own) => match key {
            Ty::FnDef(key_id, key) => {
                compare_args_after(own, key, id.cmp(key_id), normals, args)
            }
            _ => ty_variants(ty, key),
        },
        Ty::FnPtr(params, ret) => match key {
            Ty::FnPtr(keys, key_ret) => {
                let first = compare_tys(params, keys, normals, args);
                compare_ty_after(ret.as_ref(), key_ret.as_ref(), first, normals, args)
            }
            _ => ty_variants(ty, key),
        },
        Ty::Closure(id, own) => match key {
            Ty::Closure(key_id, key) => {
                compare_args_after(own, key, id.cmp(key_id), normals, args)
            }
            _ => ty_variants(ty, key),
        },
        Ty::Dynamic(bounds) => match key {
            Ty::Dynamic(keys) => compare_bounds(bounds, keys, normals, args),
            _ => ty_variants(ty, key),
        },
        Ty::Alias(_, _) => Ordering::Equal,
        Ty::Param(param) => match type_behind(normals, args, param.index) {
            Some(made) => made.cmp(key),
            None => Ordering::Equal,
        },
        Ty::Error => ty.cmp(key),
    }
}

/// How types at generic arguments compare with types.
#[cycle(comparisons)]
fn compare_tys(tys: &List<Ty>, keys: &List<Ty>, normals: &Normals, args: &GenericArgs) -> Ordering
    ensures { Compares (all_there (map (ty_at normals.now args.now) tys.now)) (λ made. slice_cmp ty_cmp made keys.now) result }
{
    let items = tys.as_slice();
    let others = keys.as_slice();
    for (i, ty) in items.iter().enumerate() {
        if i >= others.len() {
            return Ordering::Greater;
        }
        let first = compare_ty(ty, &others[i], normals, args);
        if first.is_ne() {
            return first;
        }
    }
    if items.len() < others.len() {
        return Ordering::Less;
    }
    Ordering::Equal
}

/// How the bounds of a trait object at generic arguments compare with bounds.
#[cycle(comparisons)]
fn compare_bounds(
    bounds: &List<TraitRef>,
    keys: &List<TraitRef>,
    normals: &Normals,
    args: &GenericArgs,
) -> Ordering
    ensures { Compares (all_there (map (bound_at normals.now args.now) bounds.now)) (λ made. slice_cmp bound_cmp made keys.now) result }
{
    let items = bounds.as_slice();
    let others = keys.as_slice();
    for (i, bound) in items.iter().enumerate() {
        if i >= others.len() {
            return Ordering::Greater;
        }
        let first = compare_bound(bound, &others[i], normals, args);
        if first.is_ne() {
            return first;
        }
    }
    if items.len() < others.len() {
        return Ordering::Less;
    }
    Ordering::Equal
}

/// How a trait with its arguments, at generic arguments, compares with one.
#[cycle(comparisons)]
fn compare_bound(
    bound: &TraitRef,
    key: &TraitRef,
    normals: &Normals,
    args: &GenericArgs,
) -> Ordering
    ensures { Compares (bound_at normals.now args.now bound.now) (λ made. bound_cmp made key.now) result }
{
    compare_args_after(
        &bound.args,
        &key.args,
        bound.def.cmp(&key.def),
        normals,
        args,
    )
}

/// How generic arguments at generic arguments compare with generic arguments.
#[cycle(comparisons)]
pub(crate) fn compare_args(
    own: &GenericArgs,
    key: &GenericArgs,
    normals: &Normals,
    args: &GenericArgs,
) -> Ordering
    ensures { Compares (args_at normals.now args.now own.now) (λ made. args_cmp made key.now) result }
{
    let items = own.0.as_slice();
    let others = key.0.as_slice();
    for (i, arg) in items.iter().enumerate() {
        if i >= others.len() {
            return Ordering::Greater;
        }
        let first = compare_arg(arg, &others[i], normals, args);
        if first.is_ne() {
            return first;
        }
    }
    if items.len() < others.len() {
        return Ordering::Less;
    }
    Ordering::Equal
}

/// How a generic argument at generic arguments compares with one.
#[cycle(comparisons)]
fn compare_arg(
    arg: &GenericArg,
    key: &GenericArg,
    normals: &Normals,
    args: &GenericArgs,
) -> Ordering
    ensures { Compares (arg_at normals.now args.now arg.now) (λ made. arg_cmp made key.now) result }
{
    match arg {
        GenericArg::Ty(ty) => match key {
            GenericArg::Ty(key) => compare_ty(ty, key, normals, args),
            _ => arg_variants(arg, key),
        },
        GenericArg::Konst(konst) => match key {
            GenericArg::Konst(key) => compare_const(konst, key, normals, args),
            _ => arg_variants(arg, key),
        },
    }
}

/// How a constant at generic arguments compares with one.
#[cycle(comparisons)]
fn compare_const(konst: &Const, key: &Const, normals: &Normals, args: &GenericArgs) -> Ordering
    ensures { Compares (const_at normals.now args.now konst.now) (λ made. const_cmp made key.now) result }
{
    match konst {
        Const::Value(value) => match key {
            Const::Value(key) => compare_value(value, key, normals, args),
            _ => const_variants(konst, key),
        },
        Const::Param(param) => match const_behind(args, param.index) {
            Some(made) => made.cmp(key),
            None => Ordering::Equal,
        },
        Const::Unevaluated(named) => match key {
            Const::Unevaluated(key) => compare_unevaluated(named, key, normals, args),
            _ => const_variants(konst, key),
        },
        Const::Error => konst.cmp(key),
    }
}

/// How a constant by its name, at generic arguments, compares with one.
#[cycle(comparisons)]
fn compare_unevaluated(
    named: &UnevaluatedConst,
    key: &UnevaluatedConst,
    normals: &Normals,
    args: &GenericArgs,
) -> Ordering
    ensures { Compares (unevaluated_at normals.now args.now named.now) (λ made. unevaluated_cmp made key.now) result }
{
    compare_args_after(
        &named.args,
        &key.args,
        named.def.cmp(&key.def),
        normals,
        args,
    )
}

/// How a constant's value at generic arguments compares with one.
#[cycle(comparisons)]
fn compare_value(
    value: &ValueConst,
    key: &ValueConst,
    normals: &Normals,
    args: &GenericArgs,
) -> Ordering
    ensures { Compares (value_at normals.now args.now value.now) (λ made. value_cmp made key.now) result }
{
    let first = compare_ty(&value.ty, &key.ty, normals, args);
    if first.is_ne() {
        return first;
    }
    let second = value.memory.cmp(&key.memory);
    compare_map_after(&value.memory_map, &key.memory_map, second, normals, args)
}

/// How the memory that a constant refers to compares, at generic arguments, with such memory.
#[cycle(comparisons)]
fn compare_map(map: &MemoryMap, key: &MemoryMap, normals: &Normals, args: &GenericArgs) -> Ordering
    ensures { Compares (map_at normals.now args.now map.now) (λ made. map_cmp made key.now) result }
{
    match map {
        MemoryMap::Empty => map.cmp(key),
        MemoryMap::Simple(_) => map.cmp(key),
        MemoryMap::Complex(complex) => match key {
            MemoryMap::Complex(key) => compare_complex(complex, key, normals, args),
            _ => map_variants(map, key),
        },
    }
}

/// How bytes at several addresses, and the types of vtable ids at generic arguments, compare with such.
#[cycle(comparisons)]
fn compare_complex(
    map: &ComplexMemoryMap,
    key: &ComplexMemoryMap,
    normals: &Normals,
    args: &GenericArgs,
) -> Ordering
    ensures { Compares (complex_at normals.now args.now map.now) (λ made. complex_cmp made key.now) result }
{
    compare_tys_after(
        &map.vtable,
        &key.vtable,
        map.memory.cmp(&key.memory),
        normals,
        args,
    )
}

/// The order of the earlier parts; if they are equal, that of a type at generic arguments.
#[cycle(comparisons)]
fn compare_ty_after(
    own: &Ty,
    key: &Ty,
    first: Ordering,
    normals: &Normals,
    args: &GenericArgs,
) -> Ordering
    ensures { Compares (ty_at normals.now args.now own.now) (λ made. ordering_then first (ty_cmp made key.now)) result }
{
    if first.is_ne() {
        return first;
    }
    compare_ty(own, key, normals, args)
}

/// The order of the earlier parts; if they are equal, that of types at generic arguments.
#[cycle(comparisons)]
fn compare_tys_after(
    own: &List<Ty>,
    key: &List<Ty>,
    first: Ordering,
    normals: &Normals,
    args: &GenericArgs,
) -> Ordering
    ensures { Compares (all_there (map (ty_at normals.now args.now) own.now)) (λ made. ordering_then first (slice_cmp ty_cmp made key.now)) result }
{
    if first.is_ne() {
        return first;
    }
    compare_tys(own, key, normals, args)
}

/// The order of the earlier parts; if they are equal, that of generic arguments at generic arguments.
#[cycle(comparisons)]
fn compare_args_after(
    own: &GenericArgs,
    key: &GenericArgs,
    first: Ordering,
    normals: &Normals,
    args: &GenericArgs,
) -> Ordering
    ensures { Compares (args_at normals.now args.now own.now) (λ made. ordering_then first (args_cmp made key.now)) result }
{
    if first.is_ne() {
        return first;
    }
    compare_args(own, key, normals, args)
}

/// The order of the earlier parts; if they are equal, that of a constant at generic arguments.
#[cycle(comparisons)]
fn compare_const_after(
    own: &Const,
    key: &Const,
    first: Ordering,
    normals: &Normals,
    args: &GenericArgs,
) -> Ordering
    ensures { Compares (const_at normals.now args.now own.now) (λ made. ordering_then first (const_cmp made key.now)) result }
{
    if first.is_ne() {
        return first;
    }
    compare_const(own, key, normals, args)
}

/// The order of the earlier parts; if they are equal, that of the memory of a constant at generic
/// arguments.
#[cycle(comparisons)]
fn compare_map_after(
    own: &MemoryMap,
    key: &MemoryMap,
    first: Ordering,
    normals: &Normals,
    args: &GenericArgs,
) -> Ordering
    ensures { Compares (map_at normals.now args.now own.now) (λ made. ordering_then first (map_cmp made key.now)) result }
{
    if first.is_ne() {
        return first;
    }
    compare_map(own, key, normals, args)
}
