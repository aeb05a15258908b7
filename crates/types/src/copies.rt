//! Copies of types, generic arguments and constants, which contain one another.
ghost use Rattle.std.specs.Prelude.{◌≡◌, IfOk};

use crate::{
    Box, ComplexMemoryMap, Const, GenericArg, GenericArgs, List, MemoryMap, NoMemory, TraitRef,
    TryClone, Ty, UnevaluatedConst, ValueConst,
};
use std::alloc::Global;

/// A copy of a type, which equals it.
#[cycle(copies)]
fn copy_ty(alloc: Global, ty: &Ty) -> Result<Ty, NoMemory>
    ensures { IfOk result (λ copy. copy ≡ ty.now) }
{
    match ty {
        Ty::Bool => Ok(Ty::Bool),
        Ty::Char => Ok(Ty::Char),
        Ty::Int(int) => Ok(Ty::Int(*int)),
        Ty::Uint(uint) => Ok(Ty::Uint(*uint)),
        Ty::Float(float) => Ok(Ty::Float(*float)),
        Ty::Str => Ok(Ty::Str),
        Ty::Never => Ok(Ty::Never),
        Ty::Tuple(fields) => Ok(Ty::Tuple(copy_tys(alloc, fields)?)),
        Ty::Array(element, len) => {
            let element = copy_box(alloc, element)?;
            Ok(Ty::Array(element, copy_len(alloc, len)?))
        }
        Ty::Slice(element) => Ok(Ty::Slice(copy_box(alloc, element)?)),
        Ty::Ref(to, mutability) => Ok(Ty::Ref(copy_box(alloc, to)?, *mutability)),
        Ty::RawPtr(to, mutability) => Ok(Ty::RawPtr(copy_box(alloc, to)?, *mutability)),
        Ty::Adt(id, args) => Ok(Ty::Adt(*id, copy_args(alloc, args)?)),
        Ty::FnDef(id, args) => Ok(Ty::FnDef(*id, copy_args(alloc, args)?)),
        Ty::FnPtr(params, ret) => {
            let params = copy_tys(alloc, params)?;
            Ok(Ty::FnPtr(params, copy_box(alloc, ret)?))
        }
        Ty::Closure(id, args) => Ok(Ty::Closure(*id, copy_args(alloc, args)?)),
        Ty::Dynamic(bounds) => Ok(Ty::Dynamic(copy_bounds(alloc, bounds)?)),
        Ty::Alias(id, args) => Ok(Ty::Alias(*id, copy_args(alloc, args)?)),
        Ty::Param(param) => Ok(Ty::Param(*param)),
        Ty::Error => Ok(Ty::Error),
    }
}

/// A copy of a type on the heap.
#[cycle(copies)]
fn copy_box(alloc: Global, ty: &Box<Ty>) -> Result<Box<Ty>, NoMemory>
    ensures { IfOk result (λ copy. copy ≡ ty.now) }
{
    let copy = copy_ty(alloc, ty.as_ref())?;
    Box::new(alloc, copy)
}

/// A copy of a constant on the heap.
#[cycle(copies)]
fn copy_len(alloc: Global, len: &Box<Const>) -> Result<Box<Const>, NoMemory>
    ensures { IfOk result (λ copy. copy ≡ len.now) }
{
    let copy = copy_const(alloc, len.as_ref())?;
    Box::new(alloc, copy)
}

/// Copies of types, which equal them.
#[cycle(copies)]
fn copy_tys(alloc: Global, tys: &List<Ty>) -> Result<List<Ty>, NoMemory>
    ensures { IfOk result (λ copy. copy ≡ tys.now) }
{
    let mut copy = List::new(alloc);
    let items = tys.as_slice();
    for ty in items {
        copy.push(copy_ty(alloc, ty)?)?;
    }
    Ok(copy)
}

#[cycle(copies)]
fn copy_bounds(alloc: Global, bounds: &List<TraitRef>) -> Result<List<TraitRef>, NoMemory>
    ensures { IfOk result (λ copy. copy ≡ bounds.now) }
{
    let mut copy = List::new(alloc);
    let items = bounds.as_slice();
    for bound in items {
        copy.push(copy_bound(alloc, bound)?)?;
    }
    Ok(copy)
}

#[cycle(copies)]
fn copy_bound(alloc: Global, bound: &TraitRef) -> Result<TraitRef, NoMemory>
    ensures { IfOk result (λ copy. copy ≡ bound.now) }
{
    let args = copy_args(alloc, &bound.args)?;
    Ok(TraitRef {
        def: bound.def,
        args,
    })
}

#[cycle(copies)]
fn copy_args(alloc: Global, args: &GenericArgs) -> Result<GenericArgs, NoMemory>
    ensures { IfOk result (λ copy. copy ≡ args.now) }
{
    let mut copy = List::new(alloc);
    let items = args.0.as_slice();
    for arg in items {
        copy.push(copy_arg(alloc, arg)?)?;
    }
    Ok(GenericArgs(copy))
}

#[cycle(copies)]
fn copy_arg(alloc: Global, arg: &GenericArg) -> Result<GenericArg, NoMemory>
    ensures { IfOk result (λ copy. copy ≡ arg.now) }
{
    match arg {
        GenericArg::Ty(ty) => Ok(GenericArg::Ty(copy_ty(alloc, ty)?)),
        GenericArg::Konst(konst) => Ok(GenericArg::Konst(copy_const(alloc, konst)?)),
    }
}

#[cycle(copies)]
fn copy_const(alloc: Global, konst: &Const) -> Result<Const, NoMemory>
    ensures { IfOk result (λ copy. copy ≡ konst.now) }
{
    match konst {
        Const::Value(value) => Ok(Const::Value(copy_value(alloc, value)?)),
        Const::Param(param) => Ok(Const::Param(*param)),
        Const::Unevaluated(named) => Ok(Const::Unevaluated(copy_unevaluated(alloc, named)?)),
        Const::Error => Ok(Const::Error),
    }
}

#[cycle(copies)]
fn copy_value(alloc: Global, value: &ValueConst) -> Result<ValueConst, NoMemory>
    ensures { IfOk result (λ copy. copy ≡ value.now) }
{
    let ty = copy_ty(alloc, &value.ty)?;
    let memory = value.memory.try_clone(alloc)?;
    let memory_map = copy_memory_map(alloc, &value.memory_map)?;
    Ok(ValueConst {
        ty,
        memory,
        memory_map,
    })
}

#[cycle(copies)]
fn copy_unevaluated(alloc: Global, named: &UnevaluatedConst) -> Result<UnevaluatedConst, NoMemory>
    ensures { IfOk result (λ copy. copy ≡ named.now) }
{
    let args = copy_args(alloc, &named.args)?;
    Ok(UnevaluatedConst {
        def: named.def,
        args,
    })
}

#[cycle(copies)]
fn copy_memory_map(alloc: Global, map: &MemoryMap) -> Result<MemoryMap, NoMemory>
    ensures { IfOk result (λ copy. copy ≡ map.now) }
{
    match map {
        MemoryMap::Empty => Ok(MemoryMap::Empty),
        MemoryMap::Simple(bytes) => Ok(MemoryMap::Simple(bytes.try_clone(alloc)?)),
        MemoryMap::Complex(complex) => Ok(MemoryMap::Complex(copy_complex(alloc, complex)?)),
    }
}

#[cycle(copies)]
fn copy_complex(alloc: Global, map: &ComplexMemoryMap) -> Result<ComplexMemoryMap, NoMemory>
    ensures { IfOk result (λ copy. copy ≡ map.now) }
{
    let memory = map.memory.try_clone(alloc)?;
    let vtable = copy_tys(alloc, &map.vtable)?;
    Ok(ComplexMemoryMap { memory, vtable })
}

impl TryClone for Ty {
    fn try_clone(&self, alloc: Global) -> Result<Ty, NoMemory> {
        copy_ty(alloc, self)
    }
}

impl TryClone for TraitRef {
    fn try_clone(&self, alloc: Global) -> Result<TraitRef, NoMemory> {
        copy_bound(alloc, self)
    }
}

impl TryClone for GenericArg {
    fn try_clone(&self, alloc: Global) -> Result<GenericArg, NoMemory> {
        copy_arg(alloc, self)
    }
}

impl TryClone for GenericArgs {
    fn try_clone(&self, alloc: Global) -> Result<GenericArgs, NoMemory> {
        copy_args(alloc, self)
    }
}

impl TryClone for Const {
    fn try_clone(&self, alloc: Global) -> Result<Const, NoMemory> {
        copy_const(alloc, self)
    }
}

impl TryClone for ValueConst {
    fn try_clone(&self, alloc: Global) -> Result<ValueConst, NoMemory> {
        copy_value(alloc, self)
    }
}

impl TryClone for UnevaluatedConst {
    fn try_clone(&self, alloc: Global) -> Result<UnevaluatedConst, NoMemory> {
        copy_unevaluated(alloc, self)
    }
}

impl TryClone for MemoryMap {
    fn try_clone(&self, alloc: Global) -> Result<MemoryMap, NoMemory> {
        copy_memory_map(alloc, self)
    }
}

impl TryClone for ComplexMemoryMap {
    fn try_clone(&self, alloc: Global) -> Result<ComplexMemoryMap, NoMemory> {
        copy_complex(alloc, self)
    }
}
