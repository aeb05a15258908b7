//! Where the types of the parts of values stand in `layouts`.

ghost use Rattle.std.specs.Prelude.{◌≡◌, IfOk, Some, map, option_and_then};
ghost use Rattle.source_meaning.specs.Heights.{element_parts, part_places, row_place};
ghost use Rattle.source_meaning.specs.Structs.{field_type};

use check_instances::instance_place;
use numbers::number_in;
use std::alloc::Global;
use world::{AdtId, FieldRow, GenericArgs, HirDatabase, List, NoMemory, Ty, VariantId};

/// The place of the row of a type, if it has one.
#[tactic(auto, unfolding(source_meaning::specs::Heights::row_place))]
pub(crate) fn row_place(db: &HirDatabase, ty: &Ty) -> Option<u64>
    ensures { result ≡ row_place db.now ty.now }
{
    db.layouts.place_of(ty)
}

/// The places of the rows of types, each where it has one.
fn type_places(alloc: Global, db: &HirDatabase, types: &[Ty]) -> Result<List<Option<u64>>, NoMemory>
    ensures { IfOk result (λ places. places ≡ map (option_and_then (row_place db.now)) (map Some types.now)) }
{
    let mut places = List::new(alloc);
    for ty in types {
        places.push(row_place(db, ty))?;
    }
    Ok(places)
}

/// The place of the row of a field's type at generic arguments, if it has one.
#[tactic(auto, unfolding(source_meaning::specs::Heights::row_place))]
fn field_place(
    alloc: Global,
    db: &HirDatabase,
    args: &GenericArgs,
    field: &FieldRow,
) -> Result<Option<u64>, NoMemory>
    ensures { IfOk result (λ place. place ≡ option_and_then (row_place db.now) (field_type db.now args.now field.now)) }
{
    instance_place(alloc, &db.layouts, &db.normals, args, &field.ty)
}

/// The places of the rows of the types of fields at generic arguments, each where it has one.
fn field_places(
    alloc: Global,
    db: &HirDatabase,
    args: &GenericArgs,
    fields: &[FieldRow],
) -> Result<List<Option<u64>>, NoMemory>
    ensures { IfOk result (λ places. places ≡ map (option_and_then (row_place db.now)) (map (field_type db.now args.now) fields.now)) }
{
    let mut places = List::new(alloc);
    for field in fields {
        places.push(field_place(alloc, db, args, field)?)?;
    }
    Ok(places)
}

/// The place of the row of an array's element, where the array has elements.
fn element_places(
    alloc: Global,
    db: &HirDatabase,
    count: Option<u128>,
    element: &Ty,
) -> Result<List<Option<u64>>, NoMemory>
    ensures { IfOk result (λ places. places ≡ map (option_and_then (row_place db.now)) (element_parts count element.now)) }
{
    let mut places = List::new(alloc);
    if count != Some(0) {
        places.push(row_place(db, element))?;
    }
    Ok(places)
}

/// The places of the rows of the types of the parts of a value, each where it has one.
#[tactic(auto, unfolding(source_meaning::specs::Heights::part_places, source_meaning::specs::Heights::parts_of))]
pub(crate) fn part_places(
    alloc: Global,
    db: &HirDatabase,
    ty: &Ty,
) -> Result<List<Option<u64>>, NoMemory>
    ensures { IfOk result (λ places. places ≡ part_places db.now ty.now) }
{
    match ty {
        Ty::Tuple(types) => type_places(alloc, db, types.as_slice()),
        Ty::Array(element, len) => {
            element_places(alloc, db, number_in(len.as_ref()), element.as_ref())
        }
        Ty::Adt(AdtId::StructId(id), args) => match db.field_types(VariantId::StructId(*id)) {
            Some(fields) => field_places(alloc, db, args, fields.as_slice()),
            None => Ok(List::new(alloc)),
        },
        _ => Ok(List::new(alloc)),
    }
}
