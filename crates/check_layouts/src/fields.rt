//! The fields of a type, at its arguments, inside the type's layout.
ghost use Rattle.std.specs.Prelude.{◌≡◌, ℕ, ◌+◌, ◌≤◌, IfOk, IfSome, OnOk, Option, Some, slice_get, Decides};
ghost use Rattle.check_instances.specs.Instances.{ty_instance};
ghost use Rattle.types.specs.declared.ty.Ty.{Ty};
ghost use Rattle.check_layouts.specs.Laid.{AreCaptured, AreInside, field_type, variants_of};
ghost use Rattle.check_layouts.specs.Sizes.{layout_above};
ghost use Rattle.check_layouts.specs.inner.Fields.{ArePartsInside, AreSizesRight, IsPartInside, IsPlaceOf, field_size};
ghost use Rattle.check_layouts.specs.inner.Places.{AreCapturesFixed, AreFieldsFixed, AreFixed, IsFixed};

use crate::places::{FixedPlace, FixedPlaces, place_of_index, places_of_captures};
use crate::sizes::{layout_above, layout_at};
use check_instances::instance_place;
use std::alloc::Global;
use world::{
    Capture, EnumId, EnumVariantId, FieldRow, GenericArgs, HirDatabase, InternedClosureId, List,
    Map, NoMemory, TryClone, Ty,
};

/// Whether a part has a size and, if it has an offset, ends within `size`.
fn is_part_inside(size: u64, offset: Option<u64>, part: Option<u64>) -> bool
    ensures { Decides result ((n : ℕ) × (part ≡ Some n) × IfSome offset (λ start. start + n ≤ size)) }
{
    match part {
        Some(part) => match offset {
            Some(offset) => offset <= size && part <= size - offset,
            None => true,
        },
        None => false,
    }
}

/// The size of a type, by its layout in one of the first `i` rows.
fn size_above(db: &HirDatabase, i: u64, ty: &Ty) -> Option<u64>
    ensures { result ≡ field_size db.now i (Some ty.now) }
{
    match layout_above(db, i, ty) {
        Some(layout) => Some(layout.size),
        None => None,
    }
}

/// Whether a type has a layout in one of the first `i` rows and, if it has an offset, ends within `size`.
fn is_type_inside(db: &HirDatabase, i: u64, size: u64, offset: Option<u64>, ty: &Ty) -> bool
    ensures { Decides result (IsPartInside (layout_above db.now i) size offset (Some ty.now)) }
{
    is_part_inside(size, offset, size_above(db, i, ty))
}

/// The size of a type, by the index of the row of its layout, if that is one of the first `i` rows.
fn size_at(db: &HirDatabase, i: u64, place: Option<u64>) -> Option<u64>
    ensures { (found : Option Ty) → IsPlaceOf db.now found place → result ≡ field_size db.now i found }
{
    match layout_at(db, i, place) {
        Some(layout) => Some(layout.size),
        None => None,
    }
}

/// The size of a type at generic arguments, by its layout in one of the first `i` rows. The type is not
/// made at the arguments, where it may be much larger than they and it are.
fn instance_size(
    alloc: Global,
    db: &HirDatabase,
    i: u64,
    args: &GenericArgs,
    ty: &Ty,
) -> Result<Option<u64>, NoMemory>
    ensures { IfOk result (λ size. size ≡ field_size db.now i (ty_instance db.now.normals args.now ty.now)) }
{
    let place = instance_place(alloc, &db.layouts, &db.normals, args, ty)?;
    Ok(size_at(db, i, place))
}

/// The same for a type that is not yet in `sizes`: its size, if it has one, is stored there.
fn first_size(
    alloc: Global,
    db: &HirDatabase,
    i: u64,
    args: &GenericArgs,
    sizes: &mut Map<Ty, u64>,
    ty: &Ty,
) -> Result<Option<u64>, NoMemory>
    requires { AreSizesRight db.now i args.now sizes.old }
    ensures size { IfOk result (λ size. size ≡ field_size db.now i (ty_instance db.now.normals args.now ty.now)) }
    ensures sizes { OnOk result (AreSizesRight db.now i args.now sizes.new) }
{
    let found = instance_size(alloc, db, i, args, ty)?;
    if let Some(size) = found {
        sizes.insert(ty.try_clone(alloc)?, size)?;
    }
    Ok(found)
}

/// The same for any type, whose place is `fixed` where the arguments don't matter: then the type is not
/// gone through again. Several fields of one type look up the size that was stored for the first, so that a
/// long argument is compared with the table's types once for each row, not once for each field.
fn field_size(
    alloc: Global,
    db: &HirDatabase,
    i: u64,
    args: &GenericArgs,
    sizes: &mut Map<Ty, u64>,
    fixed: FixedPlace,
    ty: &Ty,
) -> Result<Option<u64>, NoMemory>
    requires sizes { AreSizesRight db.now i args.now sizes.old }
    requires place { IsFixed db.now ty.now fixed }
    ensures size { IfOk result (λ size. size ≡ field_size db.now i (ty_instance db.now.normals args.now ty.now)) }
    ensures sizes { OnOk result (AreSizesRight db.now i args.now sizes.new) }
{
    if let Some(place) = fixed {
        return Ok(size_at(db, i, place));
    }
    if let Some(size) = sizes.get(ty) {
        return Ok(Some(*size));
    }
    first_size(alloc, db, i, args, sizes, ty)
}

/// Whether each of the types has a layout in one of the first `i` rows, and those with an offset end
/// within `size`.
fn are_types_inside(
    db: &HirDatabase,
    i: u64,
    size: u64,
    offsets: &List<u64>,
    types: &List<Ty>,
) -> bool
    ensures { Decides result (ArePartsInside (layout_above db.now i) size offsets.now Some types.now) }
{
    let items = types.as_slice();
    for (k, ty) in items.iter().enumerate() {
        let offset = offsets.get(k as u64).copied();
        if !is_type_inside(db, i, size, offset, ty) {
            return false;
        }
    }
    true
}

/// Whether each of the fields, at generic arguments, has a layout in one of the first `i` rows, and those
/// with an offset end within `size`.
pub(crate) fn are_fields_inside(
    alloc: Global,
    db: &HirDatabase,
    i: u64,
    size: u64,
    args: &GenericArgs,
    sizes: &mut Map<Ty, u64>,
    offsets: &List<u64>,
    places: &[FixedPlace],
    fields: &List<FieldRow>,
) -> Result<bool, NoMemory>
    requires sizes { AreSizesRight db.now i args.now sizes.old }
    requires places { AreFieldsFixed db.now fields.now places.now }
    ensures inside { IfOk result (λ inside. Decides inside (ArePartsInside (layout_above db.now i) size offsets.now (field_type db.now args.now) fields.now)) }
    ensures sizes { OnOk result (AreSizesRight db.now i args.now sizes.new) }
{
    let items = fields.as_slice();
    for (k, field) in items.iter().enumerate() {
        let offset = offsets.get(k as u64).copied();
        let fixed = place_of_index(places, k);
        let part = field_size(alloc, db, i, args, sizes, fixed, &field.ty)?;
        if !is_part_inside(size, offset, part) {
            return Ok(false);
        }
    }
    Ok(true)
}

/// Whether each of the captures of a closure, at generic arguments, has a layout in one of the first `i`
/// rows, and those with an offset end within `size`.
fn are_captures_inside(
    alloc: Global,
    db: &HirDatabase,
    i: u64,
    size: u64,
    args: &GenericArgs,
    offsets: &List<u64>,
    places: &[FixedPlace],
    captures: &List<Capture>,
) -> Result<bool, NoMemory>
    requires { AreCapturesFixed db.now captures.now places.now }
    ensures { IfOk result (λ inside. Decides inside (AreCaptured db.now (layout_above db.now i) size offsets.now args.now captures.now)) }
{
    let mut sizes = Map::new(alloc);
    let items = captures.as_slice();
    for (k, capture) in items.iter().enumerate() {
        let offset = offsets.get(k as u64).copied();
        let fixed = place_of_index(places, k);
        let part = field_size(alloc, db, i, args, &mut sizes, fixed, &capture.ty)?;
        if !is_part_inside(size, offset, part) {
            return Ok(false);
        }
    }
    Ok(true)
}

/// The same for the captures in a closure's row, if it has one.
pub(crate) fn is_closure_inside(
    alloc: Global,
    db: &HirDatabase,
    places: &FixedPlaces,
    i: u64,
    size: u64,
    args: &GenericArgs,
    offsets: &List<u64>,
    id: InternedClosureId,
) -> Result<bool, NoMemory>
    requires { AreFixed db.now places.now }
    ensures { IfOk result (λ inside. Decides inside (IfSome (slice_get db.now.closures id.0) (λ row. AreCaptured db.now (layout_above db.now i) size offsets.now args.now row.captures))) }
{
    match db.closures.get(id.0 as u64) {
        Some(row) => {
            let own = places_of_captures(places, id);
            are_captures_inside(alloc, db, i, size, args, offsets, own, &row.captures)
        }
        None => Ok(true),
    }
}

/// Whether a tuple has one offset for each field, and each field ends within `size`.
pub(crate) fn is_tuple_placed(
    db: &HirDatabase,
    i: u64,
    size: u64,
    offsets: &List<u64>,
    parts: &List<Ty>,
) -> bool
    ensures { Decides result (AreInside (layout_above db.now i) size offsets.now Some parts.now) }
{
    offsets.len() == parts.len() && are_types_inside(db, i, size, offsets, parts)
}

/// Whether fields have one offset each, and each ends within `size`.
pub(crate) fn are_fields_placed(
    alloc: Global,
    db: &HirDatabase,
    i: u64,
    size: u64,
    args: &GenericArgs,
    sizes: &mut Map<Ty, u64>,
    offsets: &List<u64>,
    places: &[FixedPlace],
    fields: &List<FieldRow>,
) -> Result<bool, NoMemory>
    requires sizes { AreSizesRight db.now i args.now sizes.old }
    requires places { AreFieldsFixed db.now fields.now places.now }
    ensures right { IfOk result (λ right. Decides right (AreInside (layout_above db.now i) size offsets.now (field_type db.now args.now) fields.now)) }
    ensures sizes { OnOk result (AreSizesRight db.now i args.now sizes.new) }
{
    if offsets.len() != fields.len() {
        return Ok(false);
    }
    are_fields_inside(alloc, db, i, size, args, sizes, offsets, places, fields)
}

/// The variants of an enum.
pub(crate) fn enum_variants(db: &HirDatabase, e: EnumId) -> &[EnumVariantId]
    ensures { result.now ≡ variants_of db.now e.0 }
{
    match db.enums.get(e.0 as u64) {
        Some(row) => row.variants.as_slice(),
        None => &[],
    }
}
