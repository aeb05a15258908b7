//! All tables: ids are in range, lists are short enough for ids of 32 bits, and keys are distinct.
ghost use Rattle.std.specs.Prelude.{◌≡◌, if◌then◌else◌, [], ◌∷◌, Some, None, slice_get, IfOk};
ghost use Rattle.check_items.specs.Names.{is_function_known};
ghost use Rattle.world_check.specs.Meets.{Meets};
ghost use Rattle.world_check.specs.Rows.{FindsUnmet};
ghost use Rattle.check_trees.specs.First.{FindsFailing};
ghost use Rattle.world_check.specs.WorldPlaces.{of_bodies, of_body, of_code, part_place};
ghost use Rattle.world_check.specs.declared.place.NamedFunction.TheVariants.{Drop, Deref, DerefMut, Call, CallMut, CallOnce};
ghost use Rattle.world_check.specs.declared.place.Place.TheVariants.{Function};

use crate::keyed::wrong_keyed_row;
use crate::named::{wrong_adt, wrong_closure, wrong_item, wrong_trait_or_param};
use crate::tables::in_table;
use crate::{CheckRow, NamedFunction, NodeKind, Place, TableName};
use check_ids::{BodyPart, wrong_part};
use check_items::is_function_known;
use std::alloc::Global;
use world::{BodyRow, FunctionId, HirDatabase, NoMemory};

/// The place of a part of body `b`.
fn part_place(b: u64, part: BodyPart) -> Place
    ensures { result ≡ part_place b part }
{
    match part {
        BodyPart::Exprs => Place::Nodes(b, NodeKind::Exprs),
        BodyPart::Expr(i) => Place::Node(b, NodeKind::Exprs, i),
        BodyPart::Pats => Place::Nodes(b, NodeKind::Pats),
        BodyPart::Pat(i) => Place::Node(b, NodeKind::Pats, i),
        BodyPart::Bindings => Place::Nodes(b, NodeKind::Bindings),
        BodyPart::Binding(i) => Place::Node(b, NodeKind::Bindings, i),
        BodyPart::Labels => Place::Nodes(b, NodeKind::Labels),
        BodyPart::Rest => Place::Row(TableName::Bodies, b),
    }
}

/// The place of the first part of body `b` that has an id out of range, is a list that is too long, or has
/// not one type for each node.
fn wrong_part_in(
    alloc: Global,
    db: &HirDatabase,
    b: u64,
    row: &BodyRow,
) -> Result<Option<Place>, NoMemory>
    ensures { IfOk result (λ found. slice_get db.now.bodies b ≡ Some row.now → FindsFailing (Meets CheckRow.C1 db.now) (of_body b row.now.body) found) }
{
    match wrong_part(alloc, db, &row.body, &row.infer)? {
        Some(part) => Ok(Some(part_place(b, part))),
        None => Ok(None),
    }
}

/// The place of the first wrong part of a body.
fn wrong_typed_body(alloc: Global, db: &HirDatabase) -> Result<Option<Place>, NoMemory>
    ensures { IfOk result (λ found. FindsFailing (Meets CheckRow.C1 db.now) (of_bodies 0 db.now.bodies) found) }
{
    let rows = db.bodies.as_slice();
    for (i, row) in rows.iter().enumerate() {
        if let Some(place) = wrong_part_in(alloc, db, i as u64, row)? {
            return Ok(Some(place));
        }
    }
    Ok(None)
}

/// The first wrong place among closures and bodies.
fn wrong_body(alloc: Global, db: &HirDatabase) -> Result<Option<Place>, NoMemory>
    ensures { IfOk result (λ found. FindsFailing (Meets CheckRow.C1 db.now) (of_code db.now) found) }
{
    let found = wrong_typed_body(alloc, db)?;
    let bodies = in_table(TableName::Bodies, db.bodies.len(), found);
    Ok(wrong_closure(db).or(bodies))
}

/// The place of one of the world's lang functions, as `drop_fn`, unless it is none or in range.
fn wrong_lang_function(
    name: NamedFunction,
    db: &HirDatabase,
    id: Option<FunctionId>,
) -> Option<Place>
    ensures { result ≡ (if is_function_known db.now id then None else Some (Function name)) }
{
    if is_function_known(db, id) {
        None
    } else {
        Some(Place::Function(name))
    }
}

/// The first of the functions of `Drop`, `Deref` and `DerefMut` that is out of range.
fn wrong_drop_or_deref(db: &HirDatabase) -> Option<Place>
    ensures { FindsFailing (Meets CheckRow.C1 db.now) (Function Drop ∷ Function Deref ∷ Function DerefMut ∷ []) result }
{
    let deref_mut = wrong_lang_function(NamedFunction::DerefMut, db, db.deref_mut_fn);
    let deref = wrong_lang_function(NamedFunction::Deref, db, db.deref_fn).or(deref_mut);
    wrong_lang_function(NamedFunction::Drop, db, db.drop_fn).or(deref)
}

/// The first of the functions of `Fn`, `FnMut` and `FnOnce` that is out of range.
fn wrong_call(db: &HirDatabase) -> Option<Place>
    ensures { FindsFailing (Meets CheckRow.C1 db.now) (Function Call ∷ Function CallMut ∷ Function CallOnce ∷ []) result }
{
    let call_once = wrong_lang_function(NamedFunction::CallOnce, db, db.call_once_fn);
    let call_mut = wrong_lang_function(NamedFunction::CallMut, db, db.call_mut_fn).or(call_once);
    wrong_lang_function(NamedFunction::Call, db, db.call_fn).or(call_mut)
}

/// The first place with an id out of range, a list that is too long, or a key that an earlier row has.
pub(crate) fn wrong_id(alloc: Global, db: &HirDatabase) -> Result<Option<Place>, NoMemory>
    ensures { IfOk result (λ found. FindsUnmet CheckRow.C1 db.now found) }
{
    let bodies = wrong_body(alloc, db)?;
    let functions = wrong_drop_or_deref(db).or(wrong_call(db));
    let keyed = wrong_keyed_row(db).or(functions);
    let names = wrong_trait_or_param(db).or(bodies.or(keyed));
    let adts = wrong_adt(db).or(names);
    Ok(wrong_item(db).or(adts))
}
