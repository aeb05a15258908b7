//! Where the values of places lie, and of which types they are.

ghost use Rattle.std.specs.Prelude.{◌≡◌, IfSome, option_map, slice_get};
ghost use Rattle.std.specs.Option.{option_copied};
ghost use Rattle.mir.specs.Places.{cell_at, cell_behind, elem_offset, elem_type, local_type, offset_behind, part_of_cell, part_offset, place_cell, place_type, type_at, type_behind};
ghost use Rattle.mir.specs.Projections.{projection_of};
ghost use Rattle.mir_rows.specs.Places.{saturated, HasEnd, HaveEnds};

use crate::arrays::{Numbers, array_element, array_length, element_offset, element_size, widened};
use crate::spots::part;
use either::Either;
use mir::{
    Interner, Interval, LocalId, MirBody, Place, PlaceElem, ProjectionElem, struct_field,
    tuple_part,
};
use world::{HirDatabase, Ty};

/// The type of a local.
#[inline(always)]
pub(crate) fn local_type(body: &MirBody, local: LocalId) -> Option<&Ty>
    ensures { option_copied result ≡ local_type body.now local }
{
    match body.locals.get(local.0 as u64) {
        Some(local) => Some(&local.ty),
        None => None,
    }
}

/// The type that an element leads to from a value of a type.
pub(crate) fn elem_type<'a>(db: &'a HirDatabase, elem: &PlaceElem, ty: &'a Ty) -> Option<&'a Ty>
    ensures { option_copied result ≡ elem_type db.now elem.now ty.now }
{
    match elem {
        ProjectionElem::Field(Either::Left(field)) => struct_field(db, *field, ty),
        ProjectionElem::Field(Either::Right(field)) => tuple_part(ty, *field),
        ProjectionElem::Index(_) => array_element(ty),
        _ => None,
    }
}

/// The offset that the layout of a type has for its part at an index.
fn part_offset(db: &HirDatabase, index: u32, ty: &Ty) -> Option<u64>
    ensures { result ≡ part_offset db.now index ty.now }
{
    match db.layout_of(ty) {
        Some(layout) => layout.offsets.get(index as u64).copied(),
        None => None,
    }
}

/// How far behind the first byte of a value of a type what an element leads to begins: the greatest number in place of a greater one.
pub(crate) fn elem_offset<N: Numbers>(
    db: &HirDatabase,
    numbers: &N,
    elem: &PlaceElem,
    ty: &Ty,
) -> Option<u128>
    ensures { result ≡ option_map saturated (elem_offset db.now (N.held numbers.now) elem.now ty.now) }
{
    match elem {
        ProjectionElem::Field(Either::Left(field)) => {
            widened(part_offset(db, field.local_id, ty))
        }
        ProjectionElem::Field(Either::Right(field)) => widened(part_offset(db, field.index, ty)),
        ProjectionElem::Index(local) => {
            element_offset(
                array_length(ty),
                element_size(db, ty),
                numbers.number(*local),
            )
        }
        _ => None,
    }
}

/// The type of what elements lead to, one after another.
pub(crate) fn type_behind<'a>(
    db: &'a HirDatabase,
    elements: &[PlaceElem],
    ty: Option<&'a Ty>,
) -> Option<&'a Ty>
    ensures { option_copied result ≡ type_behind db.now elements.now (option_copied ty.entry) }
{
    let mut seen = ty;
    for elem in elements {
        seen = match seen {
            Some(ty) => elem_type(db, elem, ty),
            None => None,
        };
    }
    seen
}

/// How far behind the first byte of a value of a type what elements lead to begins: the greatest number in place of a greater one.
pub(crate) fn offset_behind<N: Numbers>(
    db: &HirDatabase,
    numbers: &N,
    elements: &[PlaceElem],
    ty: Option<&Ty>,
) -> Option<u128>
    ensures { result ≡ option_map saturated (offset_behind db.now (N.held numbers.now) elements.now (option_copied ty.entry)) }
{
    let mut seen = ty;
    let mut offset: u128 = 0;
    for elem in elements {
        let Some(ty) = seen else {
            return None;
        };
        let Some(more) = elem_offset(db, numbers, elem, ty) else {
            return None;
        };
        offset = offset.saturating_add(more);
        seen = elem_type(db, elem, ty);
    }
    Some(offset)
}

/// So many bytes of a cell from an offset on, where the cell has as many.
fn part_of_cell(cell: Interval, offset: u128, size: u64) -> Option<Interval>
    requires { HasEnd cell }
    ensures { result ≡ part_of_cell cell offset size }
{
    if offset > cell.size as u128 {
        None
    } else {
        part(cell, offset as u64, size)
    }
}

/// Where the value lies that elements lead to, in the cell of a value of a type.
fn cell_behind<N: Numbers>(
    db: &HirDatabase,
    numbers: &N,
    elements: &[PlaceElem],
    ty: Option<&Ty>,
    cell: Interval,
) -> Option<Interval>
    requires { HasEnd cell }
    ensures { result ≡ cell_behind db.now (N.held numbers.now) elements.now (option_copied ty.entry) cell }
{
    if elements.is_empty() {
        return Some(cell);
    }
    let Some(offset) = offset_behind(db, numbers, elements, ty) else {
        return None;
    };
    let Some(seen) = type_behind(db, elements, ty) else {
        return None;
    };
    match db.layout_of(seen) {
        Some(layout) => part_of_cell(cell, offset, layout.size),
        None => None,
    }
}

/// The elements of a projection, where its id stands for one.
pub(crate) fn elements(body: &MirBody, place: Place) -> Option<&[PlaceElem]>
    ensures { option_copied result ≡ projection_of body.now.projection_store.projections place.projection }
{
    if body.projection_store.has(place.projection) {
        Some(place.projection.lookup(&body.projection_store))
    } else {
        None
    }
}

/// The cell of a local.
#[inline(always)]
pub fn cell_of(cells: &[Interval], local: LocalId) -> Option<Interval>
    ensures { result ≡ slice_get cells.now local.0 }
{
    match cells.get(local.0 as usize) {
        Some(cell) => Some(*cell),
        None => None,
    }
}

/// Where a place's value lies, by the elements that the id of its projection stands for.
#[inline(never)]
fn cell_at<N: Numbers>(
    db: &HirDatabase,
    body: &MirBody,
    numbers: &N,
    cells: &[Interval],
    place: Place,
) -> Option<Interval>
    requires { HaveEnds cells.now }
    ensures { result ≡ cell_at db.now body.now (N.held numbers.now) cells.now place (projection_of body.now.projection_store.projections place.projection) }
{
    let Some(elements) = elements(body, place) else {
        return None;
    };
    match cell_of(cells, place.local) {
        Some(cell) => cell_behind(db, numbers, elements, local_type(body, place.local), cell),
        None => None,
    }
}

/// Where a place's value lies.
#[inline(always)]
#[tactic(auto, unfolding(mir::specs::Places::place_cell))]
pub fn place_cell<N: Numbers>(
    db: &HirDatabase,
    body: &MirBody,
    numbers: &N,
    cells: &[Interval],
    place: Place,
) -> Option<Interval>
    requires { HaveEnds cells.now }
    ensures cell { result ≡ place_cell db.now body.now (N.held numbers.now) cells.now place }
    ensures ends { IfSome result HasEnd }
{
    if place.projection.0 == 0 {
        cell_of(cells, place.local)
    } else {
        cell_at(db, body, numbers, cells, place)
    }
}

/// The type of a place's value, by the elements that the id of its projection stands for.
#[inline(never)]
fn type_at<'a>(db: &'a HirDatabase, body: &'a MirBody, place: Place) -> Option<&'a Ty>
    ensures { option_copied result ≡ type_at db.now body.now place (projection_of body.now.projection_store.projections place.projection) }
{
    let Some(elements) = elements(body, place) else {
        return None;
    };
    type_behind(db, elements, local_type(body, place.local))
}

/// The type of a place's value.
#[inline(always)]
#[tactic(auto, unfolding(mir::specs::Places::place_type, mir::specs::Places::type_behind))]
pub fn place_type<'a>(db: &'a HirDatabase, body: &'a MirBody, place: Place) -> Option<&'a Ty>
    ensures { option_copied result ≡ place_type db.now body.now place }
{
    if place.projection.0 == 0 {
        local_type(body, place.local)
    } else {
        type_at(db, body, place)
    }
}
