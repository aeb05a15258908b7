//! Types, generic arguments and constants.

ghost use Rattle.std.specs.Prelude.{◌≡◌, [], Ok, codes, option_map};
ghost use Rattle.serde_json.specs.View.{view};
ghost use Rattle.json_kit.specs.Fit.{Gives};
ghost use Rattle.json_types.specs.Ids.{adt_id_of, alias_id_of, callable_def_id_of, interned_closure_id_of};
ghost use Rattle.json_types.specs.Kinds.{mutability_of};
ghost use Rattle.json_kit.specs.Keys.{optional};
ghost use Rattle.json_kit.specs.Parts.{list_of, pair_of};
ghost use Rattle.json_types.specs.Types.{bare_ty_of, plain_ty_of, pointing_ty_of, item_ty_of, listing_ty_of, ty_by, ty_of, generic_arg_by, generic_args_by, generic_args_of, trait_ref_by, trait_ref_of, const_by, const_of, value_const_by, unevaluated_const_by, memory_map_by, complex_memory_map_by};

use crate::JsonTypes;
use json_kit::{
    FromJson, MayBeAbsent, NotAWorld, Variant, here, inside_item, inside_key, item_at, items_at,
    members_of, optional, part_at, required, two, variant_of, with_no_other,
};
use serde_json::Value;
use std::alloc::Global;
use types::{
    AdtId, AliasId, Box, CallableDefId, ComplexMemoryMap, Const, GenericArg, GenericArgs,
    InternedClosureId, List, MemoryMap, Mutability, TraitRef, Ty, UnevaluatedConst, ValueConst,
};

/// A type without parts, as `bool`; none if the variant is another type's.
#[tactic(auto, unfolding(crate::specs::Types::bare_ty_of))]
fn bare_ty(variant: &Variant) -> Option<Ty>
    ensures { bare_ty_of (variant.now.name.now, option_map (λ part. view part.now) variant.now.payload) ≡ Ok result }
{
    if variant.is("Bool") {
        return Some(Ty::Bool);
    }
    if variant.is("Char") {
        return Some(Ty::Char);
    }
    if variant.is("Str") {
        return Some(Ty::Str);
    }
    if variant.is("Never") {
        return Some(Ty::Never);
    }
    if variant.is("Error") {
        return Some(Ty::Error);
    }
    None
}

/// An integer or float type or a type parameter; none if the variant is another type's.
#[tactic(auto, unfolding(crate::specs::Types::plain_ty_of))]
fn plain_ty(alloc: Global, variant: &Variant) -> Result<Option<Ty>, NotAWorld>
    ensures { Gives result (plain_ty_of (variant.now.name.now, option_map (λ part. view part.now) variant.now.payload)) }
{
    if let Some(width) = variant.payload(alloc, "Int")? {
        return Ok(Some(Ty::Int(width)));
    }
    if let Some(width) = variant.payload(alloc, "Uint")? {
        return Ok(Some(Ty::Uint(width)));
    }
    if let Some(width) = variant.payload(alloc, "Float")? {
        return Ok(Some(Ty::Float(width)));
    }
    if let Some(param) = variant.payload(alloc, "Param")? {
        return Ok(Some(Ty::Param(param)));
    }
    Ok(None)
}

impl MayBeAbsent<JsonTypes> for GenericArgs {
    ghost left_out = { record { 0 = [] } };

    fn absent(alloc: Global) -> GenericArgs {
        GenericArgs(List::new(alloc))
    }
}

/// A type.
#[cycle(types)]
#[tactic(auto, using(crate::proofs::TypeReaders::gives_ty))]
fn ty(alloc: Global, tree: &Value) -> Result<Ty, NotAWorld>
    ensures { Gives result (ty_of (view tree.now)) }
{
    layer(alloc, tree)
}

/// A type, from the reader of its variant.
#[cycle(types)]
#[tactic(auto, unfolding(crate::specs::Types::ty_by))]
fn layer(alloc: Global, tree: &Value) -> Result<Ty, NotAWorld>
    ensures { Gives result (ty_by ty_of const_of (view tree.now)) }
{
    let variant = variant_of(alloc, tree)?;
    if let Some(x) = bare_ty(&variant) {
        return Ok(x);
    }
    if let Some(x) = plain_ty(alloc, &variant)? {
        return Ok(x);
    }
    if let Some(x) = pointing_ty(alloc, &variant)? {
        return Ok(x);
    }
    if let Some(x) = item_ty(alloc, &variant)? {
        return Ok(x);
    }
    if let Some(x) = listing_ty(alloc, &variant)? {
        return Ok(x);
    }
    Err(here(alloc))
}

/// An array, slice, reference or raw pointer type; none if the variant is another type's.
#[cycle(types)]
#[tactic(auto, unfolding(crate::specs::Types::pointing_ty_of))]
fn pointing_ty(alloc: Global, variant: &Variant) -> Result<Option<Ty>, NotAWorld>
    ensures { Gives result (pointing_ty_of ty_of const_of (variant.now.name.now, option_map (λ part. view part.now) variant.now.payload)) }
{
    if let Some(part) = variant.part("Array") {
        let (item, len) = inside_key(alloc, "Array", ty_and_const(alloc, part))?;
        return Ok(Some(Ty::Array(Box::new(alloc, item)?, Box::new(alloc, len)?)));
    }
    if let Some(part) = variant.part("Slice") {
        let item = inside_key(alloc, "Slice", ty(alloc, part))?;
        return Ok(Some(Ty::Slice(Box::new(alloc, item)?)));
    }
    if let Some(part) = variant.part("Ref") {
        let (to, mutability) = inside_key(alloc, "Ref", target(alloc, part))?;
        return Ok(Some(Ty::Ref(Box::new(alloc, to)?, mutability)));
    }
    if let Some(part) = variant.part("RawPtr") {
        let (to, mutability) = inside_key(alloc, "RawPtr", target(alloc, part))?;
        return Ok(Some(Ty::RawPtr(Box::new(alloc, to)?, mutability)));
    }
    Ok(None)
}

/// A type and a constant.
#[cycle(types)]
#[tactic(auto, unfolding(json_kit::specs::Parts::pair_of))]
fn ty_and_const(alloc: Global, tree: &Value) -> Result<(Ty, Const), NotAWorld>
    ensures { Gives result (pair_of ty_of const_of (view tree.now)) }
{
    let (first, second) = two(alloc, tree)?;
    let x = inside_item(alloc, 0, ty(alloc, first))?;
    let y = inside_item(alloc, 1, konst(alloc, second))?;
    Ok((x, y))
}

/// The target type and the mutability of a reference or a raw pointer.
#[cycle(types)]
#[tactic(auto, unfolding(json_kit::specs::Parts::pair_of))]
fn target(alloc: Global, tree: &Value) -> Result<(Ty, Mutability), NotAWorld>
    ensures { Gives result (pair_of ty_of mutability_of (view tree.now)) }
{
    let (first, second) = two(alloc, tree)?;
    let x = inside_item(alloc, 0, ty(alloc, first))?;
    let y = item_at(alloc, second, 1)?;
    Ok((x, y))
}

/// A struct, union or enum, and its generic arguments.
#[cycle(types)]
#[tactic(auto, unfolding(json_kit::specs::Parts::pair_of))]
fn adt(alloc: Global, tree: &Value) -> Result<(AdtId, GenericArgs), NotAWorld>
    ensures { Gives result (pair_of adt_id_of generic_args_of (view tree.now)) }
{
    let (first, second) = two(alloc, tree)?;
    let x = item_at(alloc, first, 0)?;
    let y = inside_item(alloc, 1, generic_args(alloc, second))?;
    Ok((x, y))
}

/// A function or a constructor, and its generic arguments.
#[cycle(types)]
#[tactic(auto, unfolding(json_kit::specs::Parts::pair_of))]
fn fn_def(alloc: Global, tree: &Value) -> Result<(CallableDefId, GenericArgs), NotAWorld>
    ensures { Gives result (pair_of callable_def_id_of generic_args_of (view tree.now)) }
{
    let (first, second) = two(alloc, tree)?;
    let x = item_at(alloc, first, 0)?;
    let y = inside_item(alloc, 1, generic_args(alloc, second))?;
    Ok((x, y))
}

/// A closure, and its generic arguments.
#[cycle(types)]
#[tactic(auto, unfolding(json_kit::specs::Parts::pair_of))]
fn closure(alloc: Global, tree: &Value) -> Result<(InternedClosureId, GenericArgs), NotAWorld>
    ensures { Gives result (pair_of interned_closure_id_of generic_args_of (view tree.now)) }
{
    let (first, second) = two(alloc, tree)?;
    let x = item_at(alloc, first, 0)?;
    let y = inside_item(alloc, 1, generic_args(alloc, second))?;
    Ok((x, y))
}

/// A type alias or an associated type, and its generic arguments.
#[cycle(types)]
#[tactic(auto, unfolding(json_kit::specs::Parts::pair_of))]
fn alias(alloc: Global, tree: &Value) -> Result<(AliasId, GenericArgs), NotAWorld>
    ensures { Gives result (pair_of alias_id_of generic_args_of (view tree.now)) }
{
    let (first, second) = two(alloc, tree)?;
    let x = item_at(alloc, first, 0)?;
    let y = inside_item(alloc, 1, generic_args(alloc, second))?;
    Ok((x, y))
}

/// A type that is an item with generic arguments; none if the variant is another type's.
#[cycle(types)]
#[tactic(auto, unfolding(crate::specs::Types::item_ty_of))]
fn item_ty(alloc: Global, variant: &Variant) -> Result<Option<Ty>, NotAWorld>
    ensures { Gives result (item_ty_of ty_of const_of (variant.now.name.now, option_map (λ part. view part.now) variant.now.payload)) }
{
    if let Some(part) = variant.part("Adt") {
        let (id, args) = inside_key(alloc, "Adt", adt(alloc, part))?;
        return Ok(Some(Ty::Adt(id, args)));
    }
    if let Some(part) = variant.part("FnDef") {
        let (id, args) = inside_key(alloc, "FnDef", fn_def(alloc, part))?;
        return Ok(Some(Ty::FnDef(id, args)));
    }
    if let Some(part) = variant.part("Closure") {
        let (id, args) = inside_key(alloc, "Closure", closure(alloc, part))?;
        return Ok(Some(Ty::Closure(id, args)));
    }
    if let Some(part) = variant.part("Alias") {
        let (id, args) = inside_key(alloc, "Alias", alias(alloc, part))?;
        return Ok(Some(Ty::Alias(id, args)));
    }
    Ok(None)
}

/// A tuple, function pointer or trait object type; none if the variant is another type's.
#[cycle(types)]
#[tactic(auto, unfolding(crate::specs::Types::listing_ty_of))]
fn listing_ty(alloc: Global, variant: &Variant) -> Result<Option<Ty>, NotAWorld>
    ensures { Gives result (listing_ty_of ty_of const_of (variant.now.name.now, option_map (λ part. view part.now) variant.now.payload)) }
{
    if let Some(part) = variant.part("Tuple") {
        let parts = inside_key(alloc, "Tuple", tys(alloc, part))?;
        return Ok(Some(Ty::Tuple(parts)));
    }
    if let Some(part) = variant.part("FnPtr") {
        let (params, output) = inside_key(alloc, "FnPtr", signature(alloc, part))?;
        return Ok(Some(Ty::FnPtr(params, Box::new(alloc, output)?)));
    }
    if let Some(part) = variant.part("Dynamic") {
        let bounds = inside_key(alloc, "Dynamic", trait_refs(alloc, part))?;
        return Ok(Some(Ty::Dynamic(bounds)));
    }
    Ok(None)
}

/// The parameter types and the result type of a function pointer.
#[cycle(types)]
#[tactic(auto, unfolding(json_kit::specs::Parts::pair_of))]
fn signature(alloc: Global, tree: &Value) -> Result<(List<Ty>, Ty), NotAWorld>
    ensures { Gives result (pair_of (list_of ty_of) ty_of (view tree.now)) }
{
    let (first, second) = two(alloc, tree)?;
    let x = inside_item(alloc, 0, tys(alloc, first))?;
    let y = inside_item(alloc, 1, ty(alloc, second))?;
    Ok((x, y))
}

/// A list of types.
#[cycle(types)]
fn tys(alloc: Global, tree: &Value) -> Result<List<Ty>, NotAWorld>
    ensures { Gives result (list_of ty_of (view tree.now)) }
{
    let items = items_at(alloc, tree)?;
    let mut list = List::new(alloc);
    for (place, item) in items.iter().enumerate() {
        let x = inside_item(alloc, place, ty(alloc, item))?;
        list.push(x)?;
    }
    Ok(list)
}

/// The bounds of a trait object.
#[cycle(types)]
fn trait_refs(alloc: Global, tree: &Value) -> Result<List<TraitRef>, NotAWorld>
    ensures { Gives result (list_of trait_ref_of (view tree.now)) }
{
    let items = items_at(alloc, tree)?;
    let mut list = List::new(alloc);
    for (place, item) in items.iter().enumerate() {
        let x = inside_item(alloc, place, trait_ref(alloc, item))?;
        list.push(x)?;
    }
    Ok(list)
}

/// A list of generic arguments.
#[cycle(types)]
fn generic_arg_list(alloc: Global, tree: &Value) -> Result<List<GenericArg>, NotAWorld>
    ensures { Gives result (list_of (generic_arg_by ty_of const_of) (view tree.now)) }
{
    let items = items_at(alloc, tree)?;
    let mut list = List::new(alloc);
    for (place, item) in items.iter().enumerate() {
        let x = inside_item(alloc, place, generic_arg(alloc, item))?;
        list.push(x)?;
    }
    Ok(list)
}

/// Generic arguments.
#[cycle(types)]
#[tactic(auto, unfolding(crate::specs::Types::generic_args_by))]
fn generic_args(alloc: Global, tree: &Value) -> Result<GenericArgs, NotAWorld>
    ensures { Gives result (generic_args_of (view tree.now)) }
{
    let args = generic_arg_list(alloc, tree)?;
    Ok(GenericArgs(args))
}

/// A generic argument.
#[cycle(types)]
#[tactic(auto, unfolding(crate::specs::Types::generic_arg_by))]
fn generic_arg(alloc: Global, tree: &Value) -> Result<GenericArg, NotAWorld>
    ensures { Gives result (generic_arg_by ty_of const_of (view tree.now)) }
{
    let variant = variant_of(alloc, tree)?;
    if let Some(part) = variant.part("Ty") {
        let x = inside_key(alloc, "Ty", ty(alloc, part))?;
        return Ok(GenericArg::Ty(x));
    }
    if let Some(part) = variant.part("Konst") {
        let x = inside_key(alloc, "Konst", konst(alloc, part))?;
        return Ok(GenericArg::Konst(x));
    }
    Err(here(alloc))
}

/// The generic arguments at the optional key `args`.
#[cycle(types)]
fn args(alloc: Global, tree: &Value) -> Result<GenericArgs, NotAWorld>
    ensures { Gives result (optional (record { 0 = [] }) (codes "args") generic_args_of (view tree.now)) }
{
    match tree.get("args") {
        Some(part) => inside_key(alloc, "args", generic_args(alloc, part)),
        None => Ok(GenericArgs::absent(alloc)),
    }
}

/// A trait with its generic arguments.
#[cycle(types)]
#[tactic(auto, unfolding(crate::specs::Types::trait_ref_by))]
fn trait_ref(alloc: Global, tree: &Value) -> Result<TraitRef, NotAWorld>
    ensures { Gives result (trait_ref_of (view tree.now)) }
{
    let members = members_of(alloc, tree)?;
    let def = required(alloc, tree, "def")?;
    let args = args(alloc, tree)?;
    let value = TraitRef { def, args };
    let names = ["def", "args"];
    with_no_other(alloc, members, &names, value)
}

/// A constant.
#[cycle(types)]
#[tactic(auto, using(crate::proofs::TypeReaders::gives_const))]
fn konst(alloc: Global, tree: &Value) -> Result<Const, NotAWorld>
    ensures { Gives result (const_of (view tree.now)) }
{
    const_layer(alloc, tree)
}

/// A constant, from the reader of its variant.
#[cycle(types)]
#[tactic(auto, unfolding(crate::specs::Types::const_by))]
fn const_layer(alloc: Global, tree: &Value) -> Result<Const, NotAWorld>
    ensures { Gives result (const_by ty_of const_of (view tree.now)) }
{
    let variant = variant_of(alloc, tree)?;
    if let Some(part) = variant.part("Value") {
        let x = inside_key(alloc, "Value", value_const(alloc, part))?;
        return Ok(Const::Value(x));
    }
    if let Some(param) = variant.payload(alloc, "Param")? {
        return Ok(Const::Param(param));
    }
    if let Some(part) = variant.part("Unevaluated") {
        let x = inside_key(alloc, "Unevaluated", unevaluated_const(alloc, part))?;
        return Ok(Const::Unevaluated(x));
    }
    if variant.is("Error") {
        return Ok(Const::Error);
    }
    Err(here(alloc))
}

/// A constant's value.
#[cycle(types)]
#[tactic(auto, unfolding(crate::specs::Types::value_const_by))]
fn value_const(alloc: Global, tree: &Value) -> Result<ValueConst, NotAWorld>
    ensures { Gives result (value_const_by ty_of const_of (view tree.now)) }
{
    let members = members_of(alloc, tree)?;
    let ty = inside_key(alloc, "ty", ty(alloc, part_at(alloc, tree, "ty")?))?;
    let memory = required(alloc, tree, "memory")?;
    let map = part_at(alloc, tree, "memory_map")?;
    let memory_map = inside_key(alloc, "memory_map", memory_map(alloc, map))?;
    let value = ValueConst {
        ty,
        memory,
        memory_map,
    };
    let names = ["ty", "memory", "memory_map"];
    with_no_other(alloc, members, &names, value)
}

/// An unevaluated constant: an item with generic arguments.
#[cycle(types)]
#[tactic(auto, unfolding(crate::specs::Types::unevaluated_const_by))]
fn unevaluated_const(alloc: Global, tree: &Value) -> Result<UnevaluatedConst, NotAWorld>
    ensures { Gives result (unevaluated_const_by ty_of const_of (view tree.now)) }
{
    let members = members_of(alloc, tree)?;
    let def = required(alloc, tree, "def")?;
    let args = args(alloc, tree)?;
    let value = UnevaluatedConst { def, args };
    let names = ["def", "args"];
    with_no_other(alloc, members, &names, value)
}

/// The memory that a constant refers to.
#[cycle(types)]
#[tactic(auto, unfolding(crate::specs::Types::memory_map_by))]
fn memory_map(alloc: Global, tree: &Value) -> Result<MemoryMap, NotAWorld>
    ensures { Gives result (memory_map_by ty_of const_of (view tree.now)) }
{
    let variant = variant_of(alloc, tree)?;
    if variant.is("Empty") {
        return Ok(MemoryMap::Empty);
    }
    if let Some(bytes) = variant.payload(alloc, "Simple")? {
        return Ok(MemoryMap::Simple(bytes));
    }
    if let Some(part) = variant.part("Complex") {
        let x = inside_key(alloc, "Complex", complex_memory_map(alloc, part))?;
        return Ok(MemoryMap::Complex(x));
    }
    Err(here(alloc))
}

/// The types at the optional key `vtable`.
#[cycle(types)]
fn vtable(alloc: Global, tree: &Value) -> Result<List<Ty>, NotAWorld>
    ensures { Gives result (optional [] (codes "vtable") (list_of ty_of) (view tree.now)) }
{
    match tree.get("vtable") {
        Some(part) => inside_key(alloc, "vtable", tys(alloc, part)),
        None => Ok(List::new(alloc)),
    }
}

/// Bytes by address, and the types by vtable id.
#[cycle(types)]
#[tactic(auto, unfolding(crate::specs::Types::complex_memory_map_by))]
fn complex_memory_map(alloc: Global, tree: &Value) -> Result<ComplexMemoryMap, NotAWorld>
    ensures { Gives result (complex_memory_map_by ty_of const_of (view tree.now)) }
{
    let members = members_of(alloc, tree)?;
    let memory = optional(alloc, tree, "memory")?;
    let vtable = vtable(alloc, tree)?;
    let value = ComplexMemoryMap { memory, vtable };
    let names = ["memory", "vtable"];
    with_no_other(alloc, members, &names, value)
}

impl FromJson<JsonTypes> for Ty {
    ghost reads = { ty_of };

    fn from_json(alloc: Global, tree: &Value) -> Result<Ty, NotAWorld> {
        ty(alloc, tree)
    }
}

impl FromJson<JsonTypes> for Const {
    ghost reads = { const_of };

    fn from_json(alloc: Global, tree: &Value) -> Result<Const, NotAWorld> {
        konst(alloc, tree)
    }
}

impl FromJson<JsonTypes> for GenericArgs {
    ghost reads = { generic_args_of };

    fn from_json(alloc: Global, tree: &Value) -> Result<GenericArgs, NotAWorld> {
        generic_args(alloc, tree)
    }
}

impl FromJson<JsonTypes> for TraitRef {
    ghost reads = { trait_ref_of };

    fn from_json(alloc: Global, tree: &Value) -> Result<TraitRef, NotAWorld> {
        trait_ref(alloc, tree)
    }
}
