//! Spots: where the values of places lie in the cells of locals, read off a body and its world once.

ghost use Rattle.std.specs.Prelude.{◌≡◌, ◌^◌, ◌<◌, IfSome, option_and_then, slice_get};
ghost use Rattle.std.specs.Option.{option_copied};
ghost use Rattle.mir.specs.Addresses.{moved, usize_of};
ghost use Rattle.mir.specs.Places.{part_of_cell};
ghost use Rattle.mir_rows.specs.Places.{HasEnd, HaveEnds};
ghost use Rattle.mir_rows.specs.declared.spots.Spot.TheVariants.{Indexed};
ghost use Rattle.mir_rows.specs.Spots.{prepared, IsBehind, IsSpot, LiesNow};

use crate::arrays::{NoNumbers, Numbers};
use crate::places::{cell_of, elements, local_type, offset_behind, type_behind};
use crate::steps::{Reach, reach_of, start};
use mir::{Address, Interval, LocalId, MirBody, Place, PlaceElem};
use std::alloc::Global;
use types::Box;
use world::{HirDatabase, Ty};

/// Where the value of a place behind indices lies: in so many bytes of a local's cell from where a reach leads on.
#[derive(Clone, Copy)]
pub struct Element {
    pub local: LocalId,
    pub size: u64,
    pub reach: Reach,
}

/// Where the value of a place lies: in the whole cell of a local, in so many bytes of it from an offset on, or behind indices. What lies behind indices stands in a box,
/// so that it doesn't make each row larger.
#[derive(Drop)]
pub enum Spot {
    Whole(LocalId),
    Part {
        local: LocalId,
        offset: u64,
        size: u64,
    },
    Indexed(Box<Element>),
}

/// The spot that elements lead to from a local of a type, where the last leads to a value of a size: by an offset of 64 bits, or by at most two indices.
fn spot_behind(
    alloc: Global,
    db: &HirDatabase,
    local: LocalId,
    elements: &[PlaceElem],
    ty: Option<&Ty>,
    size: u64,
) -> Option<Spot>
    ensures { IfSome result (λ spot. IsBehind db.now local elements.now (option_copied ty.entry) size spot) }
{
    match offset_behind(db, &NoNumbers, elements, ty) {
        Some(offset) => Some(Spot::Part {
            local,
            offset: u64::try_from(offset).ok()?,
            size,
        }),
        None => {
            let reach = reach_of(db, elements, ty)?;
            Some(Spot::Indexed(Box::new(alloc, Element { local, size, reach }).ok()?))
        }
    }
}

/// Where the value of a place lies, as the layouts of the world say it, where an offset of 64 bits leads there, or at most two indices do.
pub(crate) fn spot_of(alloc: Global, db: &HirDatabase, body: &MirBody, place: Place) -> Option<Spot>
    ensures { IfSome result (λ spot. IsSpot (prepared db.now body.now) place spot) }
{
    if place.projection.0 == 0 {
        return Some(Spot::Whole(place.local));
    }
    let elements = elements(body, place)?;
    if elements.is_empty() {
        return Some(Spot::Whole(place.local));
    }
    let ty = local_type(body, place.local);
    let seen = type_behind(db, elements, ty)?;
    let layout = db.layout_of(seen)?;
    spot_behind(alloc, db, place.local, elements, ty, layout.size)
}

/// The address that is a number of bytes further on.
#[inline(always)]
fn moved(address: Address, by: u64) -> Address
    requires { usize_of (moved address by) < 2 ^ 64 }
    ensures { result ≡ moved address by }
{
    match address {
        Address::Stack(place) => Address::Stack(place + by),
        Address::Heap(place) => Address::Heap(place + by),
        Address::Invalid(number) => Address::Invalid(number + by),
    }
}

/// So many bytes of a cell from an offset on, where the cell has as many.
#[inline(always)]
pub(crate) fn part(cell: Interval, offset: u64, size: u64) -> Option<Interval>
    requires { HasEnd cell }
    ensures { result ≡ part_of_cell cell offset size }
{
    if offset > cell.size {
        return None;
    }
    if size > cell.size - offset {
        return None;
    }
    Some(Interval {
        addr: moved(cell.addr, offset),
        size,
    })
}

/// So many bytes of a local's cell from an offset on, where the local has a cell with as many.
#[inline(always)]
pub fn part_of_local(cells: &[Interval], local: LocalId, offset: u64, size: u64) -> Option<Interval>
    requires { HaveEnds cells.now }
    ensures { result ≡ option_and_then (λ cell. part_of_cell cell offset size) (slice_get cells.now local.0) }
{
    match cell_of(cells, local) {
        Some(cell) => part(cell, offset, size),
        None => None,
    }
}

/// Where the value of a place behind indices lies now, where it is within bounds.
#[inline(always)]
pub fn cell_of_element<N: Numbers>(
    numbers: &N,
    cells: &[Interval],
    element: &Element,
) -> Option<Interval>
    requires { HaveEnds cells.now }
    ensures { IfSome result (LiesNow (N.held numbers.now) cells.now (Indexed element.now)) }
{
    let offset = start(numbers, &element.reach)?;
    part_of_local(cells, element.local, offset, element.size)
}
