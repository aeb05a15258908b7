//! Elements of arrays: where they begin, and indices past an array's end.

ghost use Rattle.std.specs.Prelude.{◌≡◌, ℕ, Option, None, option_map};
ghost use Rattle.std.specs.Option.{option_copied};
ghost use Rattle.mir.specs.declared.ids.LocalId.{LocalId};
ghost use Rattle.mir.specs.Places.{elem_past, element_offset, element_size, is_past};
ghost use Rattle.mir.specs.ProjectedTypes.{array_element, array_length};
ghost use Rattle.mir_rows.specs.Places.{saturated};

use mir::{LocalId, PlaceElem, ProjectionElem};
use numbers::number_in;
use world::{HirDatabase, Ty};

/// The numbers that locals hold, where they are the indices on a way to a place.
pub trait Numbers {
    // The number that a local holds, where it holds one.
    ghost held: { Self → LocalId → Option ℕ };

    /// The number that a local holds, where it holds one.
    fn number(&self, local: LocalId) -> Option<u128>
        ensures { result ≡ held self.now local };
}

/// No local holds a number.
pub(crate) struct NoNumbers;

impl Numbers for NoNumbers {
    ghost held = { λ numbers local. None };

    fn number(&self, _local: LocalId) -> Option<u128> {
        None
    }
}

/// The type of the elements of an array.
pub(crate) fn array_element(ty: &Ty) -> Option<&Ty>
    ensures { option_copied result ≡ array_element ty.now }
{
    match ty {
        Ty::Array(element, _) => Some(element.as_ref()),
        _ => None,
    }
}

/// How many elements an array has, where the length in its type is a number.
pub(crate) fn array_length(ty: &Ty) -> Option<u128>
    ensures { result ≡ array_length ty.now }
{
    match ty {
        Ty::Array(_, len) => number_in(len.as_ref()),
        _ => None,
    }
}

/// How many bytes each element of an array takes.
pub(crate) fn element_size(db: &HirDatabase, ty: &Ty) -> Option<u64>
    ensures { result ≡ element_size db.now ty.now }
{
    let Some(element) = array_element(ty) else {
        return None;
    };
    match db.layout_of(element) {
        Some(layout) => Some(layout.size),
        None => None,
    }
}

/// Where the element at an index begins, in an array of so many elements of a size: the greatest number in place of a greater one.
pub(crate) fn element_offset(
    length: Option<u128>,
    size: Option<u64>,
    index: Option<u128>,
) -> Option<u128>
    ensures { result ≡ option_map saturated (element_offset length size index) }
{
    let Some(length) = length else {
        return None;
    };
    let Some(size) = size else {
        return None;
    };
    let Some(index) = index else {
        return None;
    };
    if index < length {
        Some(index.saturating_mul(size as u128))
    } else {
        None
    }
}

/// An offset as a wider number.
pub(crate) fn widened(offset: Option<u64>) -> Option<u128>
    ensures { result ≡ option_map saturated offset }
{
    match offset {
        Some(offset) => Some(offset as u128),
        None => None,
    }
}

/// Whether an index isn't below a length.
fn is_past(length: Option<u128>, index: Option<u128>) -> bool
    ensures { result ≡ is_past length index }
{
    let Some(length) = length else {
        return false;
    };
    match index {
        Some(index) => length <= index,
        None => false,
    }
}

/// Whether an element is an index past the end of the array that a value of a type is.
pub(crate) fn elem_past<N: Numbers>(numbers: &N, elem: &PlaceElem, ty: Option<&Ty>) -> bool
    ensures { result ≡ elem_past (N.held numbers.now) elem.now (option_copied ty.entry) }
{
    let ProjectionElem::Index(local) = elem else {
        return false;
    };
    match ty {
        Some(ty) => is_past(array_length(ty), numbers.number(*local)),
        None => false,
    }
}
