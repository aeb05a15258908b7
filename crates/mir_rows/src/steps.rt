//! Ways to elements of arrays: how far the elements of a projection lead, of which at most two are indices.

ghost use Rattle.std.specs.Prelude.{IfSome};
ghost use Rattle.std.specs.Option.{option_copied};
ghost use Rattle.mir_rows.specs.Steps.{reach_offset, reach_past, step_offset, step_past, IsStep, Reaches, StartsAt, StepsOn};

use crate::arrays::{NoNumbers, Numbers, array_length, element_size};
use crate::places::{elem_offset, elem_type};
use mir::{LocalId, PlaceElem, ProjectionElem};
use world::{HirDatabase, Ty};

/// A step to the element of an array whose number a local holds, of so many that have so many bytes each.
#[derive(Clone, Copy)]
pub struct Step {
    pub index: LocalId,
    pub stride: u32,
    pub length: u32,
}

/// How far elements lead: so many bytes, and as far as at most two steps into arrays.
#[derive(Clone, Copy)]
pub struct Reach {
    pub offset: u32,
    pub first: Option<Step>,
    pub second: Option<Step>,
}

/// The step that an index takes into an array of a type, where the array's numbers have 32 bits.
fn step_into(db: &HirDatabase, index: LocalId, ty: &Ty) -> Option<Step>
    ensures { IfSome result (λ step. IsStep db.now index ty.now step) }
{
    Some(Step {
        index,
        stride: u32::try_from(element_size(db, ty)?).ok()?,
        length: u32::try_from(array_length(ty)?).ok()?,
    })
}

/// How far elements lead, and then one more that leads on from a value of a type.
fn further(db: &HirDatabase, reach: Reach, elem: &PlaceElem, ty: &Ty) -> Option<Reach>
    ensures { IfSome result (λ more. StepsOn db.now elem.now ty.now reach more) }
{
    match elem {
        ProjectionElem::Index(local) => {
            let step = step_into(db, *local, ty)?;
            let Reach {
                offset,
                first,
                second,
            } = reach;
            match first {
                None => Some(Reach {
                    offset,
                    first: Some(step),
                    second,
                }),
                Some(_) => match second {
                    None => Some(Reach {
                        offset,
                        first,
                        second: Some(step),
                    }),
                    Some(_) => None,
                },
            }
        }
        ProjectionElem::Field(_) => {
            let offset = elem_offset(db, &NoNumbers, elem, ty)?;
            let offset = offset.checked_add(reach.offset as u128)?;
            Some(Reach {
                offset: u32::try_from(offset).ok()?,
                first: reach.first,
                second: reach.second,
            })
        }
        _ => None,
    }
}

/// How far elements lead from a value of a type.
pub(crate) fn reach_of(db: &HirDatabase, elements: &[PlaceElem], ty: Option<&Ty>) -> Option<Reach>
    ensures { IfSome result (λ reach. Reaches db.now elements.now (option_copied ty.entry) reach) }
{
    let mut seen = ty;
    let mut so_far = Reach {
        offset: 0,
        first: None,
        second: None,
    };
    for elem in elements {
        let ty = seen?;
        so_far = further(db, so_far, elem, ty)?;
        seen = elem_type(db, elem, ty);
    }
    Some(so_far)
}

/// Where the element that a step leads to begins in its array now, where it is within bounds.
#[inline(always)]
fn step_start<N: Numbers>(numbers: &N, step: &Step) -> Option<u64>
    ensures { IfSome result (λ start. StartsAt (step_offset (N.held numbers.now) step.now) (step_past (N.held numbers.now) step.now) start) }
{
    let number = numbers.number(step.index)?;
    if number < step.length as u128 {
        Some(number as u64 * step.stride as u64)
    } else {
        None
    }
}

/// How far a reach leads now, where it is within bounds, and that is a number of 64 bits.
#[inline(always)]
pub(crate) fn start<N: Numbers>(numbers: &N, reach: &Reach) -> Option<u64>
    ensures { IfSome result (λ start. StartsAt (reach_offset (N.held numbers.now) reach.now) (reach_past (N.held numbers.now) reach.now) start) }
{
    let first = match &reach.first {
        Some(step) => step_start(numbers, step)?,
        None => 0,
    };
    let second = match &reach.second {
        Some(step) => step_start(numbers, step)?,
        None => 0,
    };
    (reach.offset as u64)
        .checked_add(first)?
        .checked_add(second)
}
