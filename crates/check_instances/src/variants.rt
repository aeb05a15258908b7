//! The places of variants among those of their enums, by which values of different variants are ordered.
ghost use Rattle.std.specs.Prelude.{◌≡◌};
ghost use Rattle.std.specs.Ordering.{nat_cmp};
ghost use Rattle.check_instances.specs.Variants.{arg_variant, const_variant, map_variant, ty_variant};

use std::cmp::Ordering;
use types::{Const, GenericArg, MemoryMap, Ty};

/// The place of a type's variant.
fn ty_variant(ty: &Ty) -> u8
    ensures { result ≡ ty_variant ty.now }
{
    match ty {
        Ty::Bool => 0,
        Ty::Char => 1,
        Ty::Int(_) => 2,
        Ty::Uint(_) => 3,
        Ty::Float(_) => 4,
        Ty::Str => 5,
        Ty::Never => 6,
        Ty::Tuple(_) => 7,
        Ty::Array(_, _) => 8,
        Ty::Slice(_) => 9,
        Ty::Ref(_, _) => 10,
        Ty::RawPtr(_, _) => 11,
        Ty::Adt(_, _) => 12,
        Ty::FnDef(_, _) => 13,
        Ty::FnPtr(_, _) => 14,
        Ty::Closure(_, _) => 15,
        Ty::Dynamic(_) => 16,
        Ty::Alias(_, _) => 17,
        Ty::Param(_) => 18,
        Ty::Error => 19,
    }
}

/// The place of a generic argument's variant.
fn arg_variant(arg: &GenericArg) -> u8
    ensures { result ≡ arg_variant arg.now }
{
    match arg {
        GenericArg::Ty(_) => 0,
        GenericArg::Konst(_) => 1,
    }
}

/// The place of a constant's variant.
fn const_variant(konst: &Const) -> u8
    ensures { result ≡ const_variant konst.now }
{
    match konst {
        Const::Value(_) => 0,
        Const::Param(_) => 1,
        Const::Unevaluated(_) => 2,
        Const::Error => 3,
    }
}

/// The place of a memory map's variant.
fn map_variant(map: &MemoryMap) -> u8
    ensures { result ≡ map_variant map.now }
{
    match map {
        MemoryMap::Empty => 0,
        MemoryMap::Simple(_) => 1,
        MemoryMap::Complex(_) => 2,
    }
}

/// How two types compare by their variants alone.
pub(crate) fn ty_variants(a: &Ty, b: &Ty) -> Ordering
    ensures { result ≡ nat_cmp (ty_variant a.now) (ty_variant b.now) }
{
    ty_variant(a).cmp(&ty_variant(b))
}

/// How two generic arguments compare by their variants alone.
pub(crate) fn arg_variants(a: &GenericArg, b: &GenericArg) -> Ordering
    ensures { result ≡ nat_cmp (arg_variant a.now) (arg_variant b.now) }
{
    arg_variant(a).cmp(&arg_variant(b))
}

/// How two constants compare by their variants alone.
pub(crate) fn const_variants(a: &Const, b: &Const) -> Ordering
    ensures { result ≡ nat_cmp (const_variant a.now) (const_variant b.now) }
{
    const_variant(a).cmp(&const_variant(b))
}

/// How two memory maps compare by their variants alone.
pub(crate) fn map_variants(a: &MemoryMap, b: &MemoryMap) -> Ordering
    ensures { result ≡ nat_cmp (map_variant a.now) (map_variant b.now) }
{
    map_variant(a).cmp(&map_variant(b))
}
