//! Where the types of fields and captures stand in `layouts`, where that is the same at all generic arguments.
//! It is looked up once for each field as it is written, and not once for each layout of its struct, union,
//! enum or closure, of which there may be many, each at arguments of its own.
ghost use Rattle.std.specs.Prelude.{◌≡◌, [], None, IfOk, slice_get, unwrap_or};
ghost use Rattle.std.specs.List.{AllZip};
ghost use Rattle.check_layouts.specs.inner.Places.{AreCapturesFixed, AreFieldsFixed, AreFixed, IsFixed, places_of_fields};

use check_instances::instance_place;
use mentions::holds_param;
use std::alloc::Global;
use world::{
    Capture, ClosureRow, FieldRow, GenericArgs, HirDatabase, InternedClosureId, List, NoMemory,
    StructRow, Ty, VariantId, VariantRow,
};

/// The place in `layouts` of a type that holds no generic parameter, or that it has none; `None` for a
/// type that holds one.
pub(crate) type FixedPlace = Option<Option<u64>>;

/// The places of the types of all fields, by the index of their struct, union or variant, and of all
/// captures, by the index of their closure.
#[derive(Drop)]
pub(crate) struct FixedPlaces {
    structs: List<List<FixedPlace>>,
    unions: List<List<FixedPlace>>,
    variants: List<List<FixedPlace>>,
    closures: List<List<FixedPlace>>,
}

/// The place of a type, if it holds no generic parameter. Arguments then change nothing, so it is looked up
/// at none.
fn fixed_place(alloc: Global, db: &HirDatabase, ty: &Ty) -> Result<FixedPlace, NoMemory>
    ensures { IfOk result (λ place. IsFixed db.now ty.now place) }
{
    if holds_param(ty) {
        return Ok(None);
    }
    let args = GenericArgs(List::new(alloc));
    let place = instance_place(alloc, &db.layouts, &db.normals, &args, ty)?;
    Ok(Some(place))
}

/// The places of the types of fields.
fn field_places(
    alloc: Global,
    db: &HirDatabase,
    fields: &List<FieldRow>,
) -> Result<List<FixedPlace>, NoMemory>
    ensures { IfOk result (λ places. AreFieldsFixed db.now fields.now places) }
{
    let mut places = List::new(alloc);
    let items = fields.as_slice();
    for field in items {
        places.push(fixed_place(alloc, db, &field.ty)?)?;
    }
    Ok(places)
}

/// The places of the types of captures.
fn capture_places(
    alloc: Global,
    db: &HirDatabase,
    captures: &List<Capture>,
) -> Result<List<FixedPlace>, NoMemory>
    ensures { IfOk result (λ places. AreCapturesFixed db.now captures.now places) }
{
    let mut places = List::new(alloc);
    let items = captures.as_slice();
    for capture in items {
        places.push(fixed_place(alloc, db, &capture.ty)?)?;
    }
    Ok(places)
}

/// The places of the types of the fields of structs or unions.
fn struct_places(
    alloc: Global,
    db: &HirDatabase,
    rows: &List<StructRow>,
) -> Result<List<List<FixedPlace>>, NoMemory>
    ensures { IfOk result (λ places. AllZip (λ row own. AreFieldsFixed db.now row.fields own) rows.now places) }
{
    let mut places = List::new(alloc);
    let items = rows.as_slice();
    for row in items {
        places.push(field_places(alloc, db, &row.fields)?)?;
    }
    Ok(places)
}

/// The places of the types of the fields of variants.
fn variant_places(
    alloc: Global,
    db: &HirDatabase,
    rows: &List<VariantRow>,
) -> Result<List<List<FixedPlace>>, NoMemory>
    ensures { IfOk result (λ places. AllZip (λ row own. AreFieldsFixed db.now row.fields own) rows.now places) }
{
    let mut places = List::new(alloc);
    let items = rows.as_slice();
    for row in items {
        places.push(field_places(alloc, db, &row.fields)?)?;
    }
    Ok(places)
}

/// The places of the types of the captures of closures.
fn closure_places(
    alloc: Global,
    db: &HirDatabase,
    rows: &List<ClosureRow>,
) -> Result<List<List<FixedPlace>>, NoMemory>
    ensures { IfOk result (λ places. AllZip (λ row own. AreCapturesFixed db.now row.captures own) rows.now places) }
{
    let mut places = List::new(alloc);
    let items = rows.as_slice();
    for row in items {
        places.push(capture_places(alloc, db, &row.captures)?)?;
    }
    Ok(places)
}

/// The places of the types of all fields and captures.
pub(crate) fn fixed_places(alloc: Global, db: &HirDatabase) -> Result<FixedPlaces, NoMemory>
    ensures { IfOk result (λ places. AreFixed db.now places) }
{
    let structs = struct_places(alloc, db, &db.structs)?;
    let unions = struct_places(alloc, db, &db.unions)?;
    let variants = variant_places(alloc, db, &db.variants)?;
    let closures = closure_places(alloc, db, &db.closures)?;
    Ok(FixedPlaces {
        structs,
        unions,
        variants,
        closures,
    })
}

/// The places in the list at an index; none past the end.
fn row_places(rows: &List<List<FixedPlace>>, id: u32) -> &[FixedPlace]
    ensures { result.now ≡ unwrap_or (slice_get rows.now id) [] }
{
    match rows.get(id as u64) {
        Some(places) => places.as_slice(),
        None => &[],
    }
}

/// The places of the types of the fields of a variant, struct or union.
pub(crate) fn places_of_fields(places: &FixedPlaces, v: VariantId) -> &[FixedPlace]
    ensures { result.now ≡ places_of_fields places.now v }
{
    match v {
        VariantId::EnumVariantId(id) => row_places(&places.variants, id.0),
        VariantId::StructId(id) => row_places(&places.structs, id.0),
        VariantId::UnionId(id) => row_places(&places.unions, id.0),
    }
}

/// The places of the types of the captures of a closure.
pub(crate) fn places_of_captures(places: &FixedPlaces, id: InternedClosureId) -> &[FixedPlace]
    ensures { result.now ≡ unwrap_or (slice_get places.now.closures id.0) [] }
{
    row_places(&places.closures, id.0)
}

/// The place at an index; none past the end.
pub(crate) fn place_of_index(places: &[FixedPlace], k: usize) -> FixedPlace
    ensures { result ≡ unwrap_or (slice_get places.now k) None }
{
    match places.get(k) {
        Some(place) => *place,
        None => None,
    }
}
