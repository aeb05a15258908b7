//! Places that are out of bounds: an index on the way to one isn't below the length of its array.

ghost use Rattle.std.specs.Prelude.{◌≡◌};
ghost use Rattle.std.specs.Option.{option_copied};
ghost use Rattle.mir.specs.Places.{is_out_of_bounds, leads_past, past_at};
ghost use Rattle.mir.specs.Projections.{projection_of};
ghost use Rattle.mir.specs.Run.{assigns_out, operand_out, reads_out, some_out};

use crate::arrays::{Numbers, elem_past};
use crate::places::{elem_type, elements, local_type};
use mir::{MirBody, Operand, OperandKind, Place, PlaceElem, Rvalue};
use world::{HirDatabase, Ty};

/// Whether one of elements, one after another, is an index past the end of its array.
fn leads_past<N: Numbers>(
    db: &HirDatabase,
    numbers: &N,
    elements: &[PlaceElem],
    ty: Option<&Ty>,
) -> bool
    ensures { result ≡ leads_past db.now (N.held numbers.now) elements.now (option_copied ty.entry) }
{
    let mut seen = ty;
    for elem in elements {
        if elem_past(numbers, elem, seen) {
            return true;
        }
        seen = match seen {
            Some(ty) => elem_type(db, elem, ty),
            None => None,
        };
    }
    false
}

/// Whether a place is out of bounds, by the elements that the id of its projection stands for.
#[inline(never)]
fn past_at<N: Numbers>(db: &HirDatabase, body: &MirBody, numbers: &N, place: Place) -> bool
    ensures { result ≡ past_at db.now body.now (N.held numbers.now) place (projection_of body.now.projection_store.projections place.projection) }
{
    match elements(body, place) {
        Some(elements) => leads_past(db, numbers, elements, local_type(body, place.local)),
        None => false,
    }
}

/// Whether a place is out of bounds.
#[inline(always)]
#[tactic(auto, unfolding(mir::specs::Places::is_out_of_bounds, mir::specs::Places::leads_past))]
pub fn is_out_of_bounds<N: Numbers>(
    db: &HirDatabase,
    body: &MirBody,
    numbers: &N,
    place: Place,
) -> bool
    ensures { result ≡ is_out_of_bounds db.now body.now (N.held numbers.now) place }
{
    if place.projection.0 == 0 {
        false
    } else {
        past_at(db, body, numbers, place)
    }
}

/// Whether an operand is a place that is out of bounds.
#[inline(always)]
#[tactic(auto, unfolding(mir::specs::Run::operand_out))]
pub fn operand_out<N: Numbers>(
    db: &HirDatabase,
    body: &MirBody,
    numbers: &N,
    kind: &OperandKind,
) -> bool
    ensures { result ≡ operand_out db.now body.now (N.held numbers.now) kind.now }
{
    match kind {
        OperandKind::Copy(place) => is_out_of_bounds(db, body, numbers, *place),
        OperandKind::Constant { .. } => false,
    }
}

/// Whether one of operands is.
pub fn some_out<N: Numbers>(
    db: &HirDatabase,
    body: &MirBody,
    numbers: &N,
    operands: &[Operand],
) -> bool
    ensures { result ≡ some_out db.now body.now (N.held numbers.now) operands.now }
{
    for operand in operands {
        if operand_out(db, body, numbers, &operand.kind) {
            return true;
        }
    }
    false
}

/// Whether an operand that an assignment reads is out of bounds.
#[tactic(auto, unfolding(mir::specs::Run::reads_out))]
fn reads_out<N: Numbers>(db: &HirDatabase, body: &MirBody, numbers: &N, rvalue: &Rvalue) -> bool
    ensures { result ≡ reads_out db.now body.now (N.held numbers.now) rvalue.now }
{
    match rvalue {
        Rvalue::Use(operand) => operand_out(db, body, numbers, &operand.kind),
        Rvalue::Repeat(operand, _) => operand_out(db, body, numbers, &operand.kind),
        Rvalue::Cast(_, operand, _) => operand_out(db, body, numbers, &operand.kind),
        Rvalue::CheckedBinaryOp(_, left, right) => {
            operand_out(db, body, numbers, &left.kind)
                || operand_out(db, body, numbers, &right.kind)
        }
        Rvalue::UnaryOp(_, operand) => operand_out(db, body, numbers, &operand.kind),
        Rvalue::Aggregate(_, operands) => some_out(db, body, numbers, operands.as_slice()),
    }
}

/// Whether an assignment uses a place that is out of bounds: its own, or one that it reads.
pub fn assigns_out<N: Numbers>(
    db: &HirDatabase,
    body: &MirBody,
    numbers: &N,
    place: Place,
    rvalue: &Rvalue,
) -> bool
    ensures { result ≡ assigns_out db.now body.now (N.held numbers.now) place rvalue.now }
{
    is_out_of_bounds(db, body, numbers, place) || reads_out(db, body, numbers, rvalue)
}
