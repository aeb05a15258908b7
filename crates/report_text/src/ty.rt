//! The texts of types, generic arguments and constants.

ghost use Rattle.std.specs.Prelude.{◌≡◌, ◌++◌, map, IfOk};
ghost use Rattle.report_text.specs.Types.{int_text, uint_text, float_text, reference_word, pointer_word, tuple_text, array_text, slice_text, pointer_to_function_text, dynamic_text, type_text, arg_text, args_texts, bound_text};

use crate::consts::const_text;
use crate::ids::closure_text;
use crate::names::{adt_name, alias_name, callable_name, trait_name, type_param_name};
use crate::texts::{enclosed, joined, listed, summed, with_args};
use std::alloc::Global;
use world::{
    Bytes, FloatTy, GenericArg, GenericArgs, HirDatabase, IntTy, List, Mutability, NoMemory,
    TraitRef, Ty, UintTy,
};

/// The text of a signed integer type.
fn int_text(int: IntTy) -> &'static [u8]
    ensures { result.now ≡ int_text int }
{
    match int {
        IntTy::I8 => b"i8",
        IntTy::I16 => b"i16",
        IntTy::I32 => b"i32",
        IntTy::I64 => b"i64",
        IntTy::I128 => b"i128",
        IntTy::Isize => b"isize",
    }
}

/// The text of an unsigned integer type.
fn uint_text(uint: UintTy) -> &'static [u8]
    ensures { result.now ≡ uint_text uint }
{
    match uint {
        UintTy::U8 => b"u8",
        UintTy::U16 => b"u16",
        UintTy::U32 => b"u32",
        UintTy::U64 => b"u64",
        UintTy::U128 => b"u128",
        UintTy::Usize => b"usize",
    }
}

/// The text of a floating-point type.
fn float_text(float: FloatTy) -> &'static [u8]
    ensures { result.now ≡ float_text float }
{
    match float {
        FloatTy::F16 => b"f16",
        FloatTy::F32 => b"f32",
        FloatTy::F64 => b"f64",
        FloatTy::F128 => b"f128",
    }
}

/// The text before the type that a reference points to.
fn reference_word(mutability: Mutability) -> &'static [u8]
    ensures { result.now ≡ reference_word mutability }
{
    match mutability {
        Mutability::Not => b"&",
        Mutability::Mut => b"&mut ",
    }
}

/// The text before the type that a raw pointer points to.
fn pointer_word(mutability: Mutability) -> &'static [u8]
    ensures { result.now ≡ pointer_word mutability }
{
    match mutability {
        Mutability::Not => b"*const ",
        Mutability::Mut => b"*mut ",
    }
}

/// The text of a tuple type, from those of its fields.
fn tuple_text(alloc: Global, fields: &[Bytes]) -> Result<Bytes, NoMemory>
    ensures { IfOk result (λ text. text ≡ tuple_text fields.now) }
{
    match fields {
        [] => Bytes::from_slice(alloc, b"()"),
        [field] => enclosed(alloc, b"(", field.as_slice(), b",)"),
        [_, _, ..] => {
            let inside = listed(alloc, fields)?;
            enclosed(alloc, b"(", inside.as_slice(), b")")
        }
    }
}

/// The text of an array type, from those of its element type and of its length.
fn array_text(alloc: Global, element: &[u8], len: &[u8]) -> Result<Bytes, NoMemory>
    ensures { IfOk result (λ text. text ≡ array_text element.now len.now) }
{
    let rest = enclosed(alloc, b"; ", len, b"]")?;
    enclosed(alloc, b"[", element, rest.as_slice())
}

/// The text of a function pointer type, from those of its parameters and of its result.
fn pointer_to_function_text(alloc: Global, params: &[Bytes], ret: &[u8]) -> Result<Bytes, NoMemory>
    ensures { IfOk result (λ text. text ≡ pointer_to_function_text params.now ret.now) }
{
    let inside = listed(alloc, params)?;
    let rest = joined(alloc, b") -> ", ret)?;
    enclosed(alloc, b"fn(", inside.as_slice(), rest.as_slice())
}

/// The text of a trait object type, from those of its bounds.
fn dynamic_text(alloc: Global, bounds: &[Bytes]) -> Result<Bytes, NoMemory>
    ensures { IfOk result (λ text. text ≡ dynamic_text bounds.now) }
{
    let inside = summed(alloc, bounds)?;
    joined(alloc, b"dyn ", inside.as_slice())
}

/// The text of a type, as Rust writes it.
#[cycle(types)]
#[tactic(auto, using(crate::proofs::Layers::type_layers), unfolding(crate::specs::Types::rendered_ty))]
pub(crate) fn type_text(alloc: Global, db: &HirDatabase, ty: &Ty) -> Result<Bytes, NoMemory>
    ensures { IfOk result (λ text. text ≡ type_text db.now ty.now) }
{
    match ty {
        Ty::Bool => Bytes::from_slice(alloc, b"bool"),
        Ty::Char => Bytes::from_slice(alloc, b"char"),
        Ty::Int(int) => Bytes::from_slice(alloc, int_text(*int)),
        Ty::Uint(uint) => Bytes::from_slice(alloc, uint_text(*uint)),
        Ty::Float(float) => Bytes::from_slice(alloc, float_text(*float)),
        Ty::Str => Bytes::from_slice(alloc, b"str"),
        Ty::Never => Bytes::from_slice(alloc, b"!"),
        Ty::Tuple(fields) => {
            let texts = type_texts(alloc, db, fields)?;
            tuple_text(alloc, texts.as_slice())
        }
        Ty::Array(element, len) => {
            let element = type_text(alloc, db, element.as_ref())?;
            let len = const_text(alloc, db, len.as_ref())?;
            array_text(alloc, element.as_slice(), len.as_slice())
        }
        Ty::Slice(element) => {
            let element = type_text(alloc, db, element.as_ref())?;
            enclosed(alloc, b"[", element.as_slice(), b"]")
        }
        Ty::Ref(to, mutability) => {
            let to = type_text(alloc, db, to.as_ref())?;
            joined(alloc, reference_word(*mutability), to.as_slice())
        }
        Ty::RawPtr(to, mutability) => {
            let to = type_text(alloc, db, to.as_ref())?;
            joined(alloc, pointer_word(*mutability), to.as_slice())
        }
        Ty::Adt(id, args) => {
            let args = args_texts(alloc, db, args)?;
            with_args(alloc, adt_name(db, *id), args.as_slice())
        }
        Ty::FnDef(id, args) => {
            let args = args_texts(alloc, db, args)?;
            with_args(alloc, callable_name(db, *id), args.as_slice())
        }
        Ty::FnPtr(params, ret) => {
            let params = type_texts(alloc, db, params)?;
            let ret = type_text(alloc, db, ret.as_ref())?;
            pointer_to_function_text(alloc, params.as_slice(), ret.as_slice())
        }
        Ty::Closure(id, _) => closure_text(alloc, *id),
        Ty::Dynamic(bounds) => {
            let bounds = bound_texts(alloc, db, bounds)?;
            dynamic_text(alloc, bounds.as_slice())
        }
        Ty::Alias(id, args) => {
            let args = args_texts(alloc, db, args)?;
            with_args(alloc, alias_name(db, *id), args.as_slice())
        }
        Ty::Param(param) => Bytes::from_slice(alloc, type_param_name(db, param.id)),
        Ty::Error => Bytes::from_slice(alloc, b"{error}"),
    }
}

/// The texts of types.
#[cycle(types)]
fn type_texts(alloc: Global, db: &HirDatabase, tys: &List<Ty>) -> Result<List<Bytes>, NoMemory>
    ensures { IfOk result (λ texts. texts ≡ map (type_text db.now) tys.now) }
{
    let mut texts = List::new(alloc);
    let items = tys.as_slice();
    for ty in items {
        texts.push(type_text(alloc, db, ty)?)?;
    }
    Ok(texts)
}

/// The texts of the bounds of a trait object.
#[cycle(types)]
fn bound_texts(
    alloc: Global,
    db: &HirDatabase,
    bounds: &List<TraitRef>,
) -> Result<List<Bytes>, NoMemory>
    ensures { IfOk result (λ texts. texts ≡ map (bound_text db.now) bounds.now) }
{
    let mut texts = List::new(alloc);
    let items = bounds.as_slice();
    for bound in items {
        texts.push(bound_text(alloc, db, bound)?)?;
    }
    Ok(texts)
}

/// The text of a trait with its generic arguments.
#[cycle(types)]
#[tactic(auto, using(crate::proofs::Layers::bound_is))]
fn bound_text(alloc: Global, db: &HirDatabase, bound: &TraitRef) -> Result<Bytes, NoMemory>
    ensures { IfOk result (λ text. text ≡ bound_text db.now bound.now) }
{
    let args = args_texts(alloc, db, &bound.args)?;
    with_args(alloc, trait_name(db, bound.def), args.as_slice())
}

/// The texts of generic arguments.
#[cycle(types)]
fn args_texts(alloc: Global, db: &HirDatabase, args: &GenericArgs) -> Result<List<Bytes>, NoMemory>
    ensures { IfOk result (λ texts. texts ≡ args_texts db.now args.now) }
{
    let mut texts = List::new(alloc);
    let items = args.0.as_slice();
    for arg in items {
        texts.push(arg_text(alloc, db, arg)?)?;
    }
    Ok(texts)
}

/// The text of a generic argument.
#[cycle(types)]
#[tactic(auto, using(crate::proofs::Layers::type_arg_is, crate::proofs::Layers::const_arg_is))]
fn arg_text(alloc: Global, db: &HirDatabase, arg: &GenericArg) -> Result<Bytes, NoMemory>
    ensures { IfOk result (λ text. text ≡ arg_text db.now arg.now) }
{
    match arg {
        GenericArg::Ty(ty) => type_text(alloc, db, ty),
        GenericArg::Konst(konst) => const_text(alloc, db, konst),
    }
}
