//! The type of what an element of a projection leads to.

ghost use Rattle.std.specs.Prelude.{◌≡◌, ◌+◌, IfOk, Ok, slice_get};
ghost use Rattle.std.specs.Borrow.{Bor};
ghost use Rattle.std.specs.Option.{option_copied};
ghost use Rattle.types.specs.declared.ty.GenericArgs.{GenericArgs as Args};
ghost use Rattle.check_instances.specs.Instances.{type_argument};
ghost use Rattle.numbers.specs.Constants.{number_in};
ghost use Rattle.mir.specs.ProjectedTypes.{IsProjected, element_type, field_type, or_error, part_type, pointee, ready_field_type, seen, subslice_type, usize_const};

use crate::ProjectionElem;
use check_instances::{NoInstance, ready_instance, ty_instance};
use either::Either;
use numbers::number_in;
use std::alloc::Global;
use world::{
    AdtId, Box, Bytes, Const, Crate, FieldId, GenericArg, GenericArgs, HirDatabase,
    InternedClosureId, MemoryMap, NoMemory, TryClone, TupleFieldId, Ty, UintTy, ValueConst,
    VariantId,
};

impl<V: PartialEq> ProjectionElem<V> {
    /// The type of what the element leads to, from a place of type `base`; for what a closure captured, what `closure_field`
    /// answers. Where there is none, it is `Ty::Error`. An alias counts as the type that it stands for.
    pub fn projected_ty<
        F: FnOnce(InternedClosureId, &GenericArgs, u32) -> Result<Ty, NoMemory> + Drop,
    >(
        &self,
        alloc: Global,
        db: &HirDatabase,
        base: &Ty,
        closure_field: F,
        _krate: Crate,
    ) -> Result<Ty, NoMemory>
        requires { F.IsAlwaysCallable closure_field }
        ensures { IfOk result (IsProjected (λ id args index ty. (lent : Bor Args) × (lent.now ≡ args) × F.post closure_field id lent index (Ok ty)) db.now self.now base.now) }
    {
        let Some(base) = seen(db, base) else {
            return Ok(Ty::Error);
        };
        match self {
            ProjectionElem::Deref => copied(alloc, pointee(db, base)),
            ProjectionElem::Field(Either::Left(field)) => field_ty(alloc, db, base, *field),
            ProjectionElem::Field(Either::Right(field)) => copied(alloc, tuple_part(base, *field)),
            ProjectionElem::ClosureField(index) => match base {
                Ty::Closure(id, args) => closure_field(*id, args, *index),
                _ => Ok(Ty::Error),
            },
            ProjectionElem::Index(_) => copied(alloc, element(base)),
            ProjectionElem::ConstantIndex { .. } => copied(alloc, element(base)),
            ProjectionElem::Subslice { from, to } => subslice(alloc, base, *from, *to),
            ProjectionElem::OpaqueCast(_) => Ok(Ty::Error),
        }
    }
}

/// A copy of a type, or `Error` where there is none.
fn copied(alloc: Global, ty: Option<&Ty>) -> Result<Ty, NoMemory>
    ensures { IfOk result (λ copy. copy ≡ or_error (option_copied ty.entry)) }
{
    match ty {
        Some(ty) => ty.try_clone(alloc),
        None => Ok(Ty::Error),
    }
}

/// The type that an alias stands for, if the world has it; each other type itself.
fn seen<'a>(db: &'a HirDatabase, ty: &'a Ty) -> Option<&'a Ty>
    ensures { option_copied result ≡ seen db.now ty.now }
{
    match ty {
        Ty::Alias(id, args) => db.normal_of(*id, args),
        _ => Some(ty),
    }
}

/// What a reference, a raw pointer or a box points to.
fn pointee<'a>(db: &HirDatabase, ty: &'a Ty) -> Option<&'a Ty>
    ensures { option_copied result ≡ pointee db.now ty.now }
{
    match ty {
        Ty::Ref(to, _) => Some(to.as_ref()),
        Ty::RawPtr(to, _) => Some(to.as_ref()),
        Ty::Adt(AdtId::StructId(id), args) => match db.structs.get(id.0 as u64) {
            Some(row) => match args.0.get(0) {
                Some(GenericArg::Ty(ty)) => if row.is_box { Some(ty) } else { None },
                _ => None,
            },
            None => None,
        },
        _ => None,
    }
}

/// The type of a field, at the generic arguments of the type that has it.
fn field_ty(alloc: Global, db: &HirDatabase, ty: &Ty, field: FieldId) -> Result<Ty, NoMemory>
    ensures { IfOk result (λ made. made ≡ or_error (field_type db.now field ty.now)) }
{
    let Ty::Adt(_, args) = ty else {
        return Ok(Ty::Error);
    };
    let Some(fields) = db.field_types(field.parent) else {
        return Ok(Ty::Error);
    };
    let Some(row) = fields.get(field.local_id as u64) else {
        return Ok(Ty::Error);
    };
    match ty_instance(alloc, &db.normals, args, &row.ty) {
        Ok(made) => Ok(made),
        Err(NoInstance::Missing) => Ok(Ty::Error),
        Err(NoInstance::NoMemory) => Err(NoMemory),
    }
}

/// The type of a field of a struct at its generic arguments, where it needn't be made: the row's, where that holds no generic
/// parameter, or the argument of the parameter that it is.
pub fn struct_field<'a>(db: &'a HirDatabase, field: FieldId, ty: &'a Ty) -> Option<&'a Ty>
    ensures { option_copied result ≡ ready_field_type db.now field ty.now }
{
    let Ty::Adt(_, args) = ty else {
        return None;
    };
    let VariantId::StructId(_) = field.parent else {
        return None;
    };
    let Some(fields) = db.field_types(field.parent) else {
        return None;
    };
    match fields.get(field.local_id as u64) {
        Some(row) => ready_instance(args, &row.ty),
        None => None,
    }
}

/// The type of a part of a tuple.
pub fn tuple_part(ty: &Ty, field: TupleFieldId) -> Option<&Ty>
    ensures { option_copied result ≡ part_type field ty.now }
{
    match ty {
        Ty::Tuple(parts) => parts.get(field.index as u64),
        _ => None,
    }
}

/// The type of the elements of an array or a slice.
fn element(ty: &Ty) -> Option<&Ty>
    ensures { option_copied result ≡ element_type ty.now }
{
    match ty {
        Ty::Array(element, _) => Some(element.as_ref()),
        Ty::Slice(element) => Some(element.as_ref()),
        _ => None,
    }
}

/// The type of an array or a slice without its first `from` and its last `to` elements.
fn subslice(alloc: Global, ty: &Ty, from: u64, to: u64) -> Result<Ty, NoMemory>
    ensures { IfOk result (λ made. made ≡ or_error (subslice_type from to ty.now)) }
{
    match ty {
        Ty::Array(element, len) => {
            let cut = from as u128 + to as u128;
            let rest = match number_in(len.as_ref()) {
                Some(number) => {
                    if cut <= number {
                        usize_const(alloc, number - cut)?
                    } else {
                        Const::Error
                    }
                }
                None => Const::Error,
            };
            let element = element.try_clone(alloc)?;
            Ok(Ty::Array(element, Box::new(alloc, rest)?))
        }
        Ty::Slice(_) => ty.try_clone(alloc),
        _ => Ok(Ty::Error),
    }
}

/// The low eight bytes of a number, as a constant of type `usize`.
fn usize_const(alloc: Global, number: u128) -> Result<Const, NoMemory>
    ensures { IfOk result (λ konst. konst ≡ usize_const number) }
{
    let bytes = number.to_le_bytes();
    let memory = Bytes::from_slice(alloc, &bytes[..8])?;
    Ok(Const::Value(ValueConst {
        ty: Ty::Uint(UintTy::Usize),
        memory,
        memory_map: MemoryMap::Empty,
    }))
}
