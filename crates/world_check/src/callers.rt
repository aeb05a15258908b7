//! What callers get from the contracts of the check alone.
ghost use Rattle.std.specs.Prelude.{◌≡◌, ℕ, List, Some, true, slice_get, IfErr, IfSome, OnOk};
ghost use Rattle.types.specs.declared.ids.AdtId.TheVariants as adt;
ghost use Rattle.types.specs.declared.ids.StructId.{StructId};
ghost use Rattle.types.specs.declared.ids.VariantId.TheVariants as variant;
ghost use Rattle.types.specs.declared.ty.GenericArgs.{GenericArgs};
ghost use Rattle.types.specs.declared.ty.Ty.{Adt};
ghost use Rattle.world.specs.Checked.{IsCheckedBody};
ghost use Rattle.world.specs.Lookups.{fields_of, layout_of};
ghost use Rattle.world.specs.declared.items.FieldRow.{FieldRow};
ghost use Rattle.world.specs.declared.layout.Layout.{Layout};
ghost use Rattle.world_check.specs.Laid.{AreLaidOut, HasLayout, field_type};
ghost use Rattle.world_check.specs.Rows.{IsRefusal};
ghost use Rattle.world_check.specs.TypeIds.{AreIdsKnown};

use crate::{CheckFault, CheckedWorld, check, check_body};
use std::alloc::Global;
use world::{Body, HirDatabase, InferenceResult};

/// The database of a world that passed the check: where a struct has a layout, each of its fields has one.
fn checked_structs(checked: &CheckedWorld) -> &HirDatabase
    ensures fields { (id : StructId) (args : GenericArgs) (layout : Layout) (rows : List FieldRow) (k : ℕ) (field : FieldRow) → layout_of result.now (Adt (adt.StructId id) args) ≡ Some layout → fields_of result.now (variant.StructId id) ≡ Some rows → slice_get rows k ≡ Some field → HasLayout (layout_of result.now) (field_type result.now args field) }
    ensures ids { AreIdsKnown result.now }
{
    checked.db()
}

/// Whether a world passes the check. If it does, each layout tells where the parts of its type lie.
fn passes(alloc: Global, db: &HirDatabase) -> bool
    ensures { result ≡ true → AreLaidOut db.now }
{
    check(alloc, db).is_ok()
}

/// Why the check refuses a world, if it does: the first row that some place doesn't meet, and the first such place.
fn refusal(alloc: Global, db: &HirDatabase) -> Option<CheckFault>
    ensures { IfSome result (IsRefusal db.now) }
{
    check(alloc, db).err()
}

/// The checked world, in which each layout tells where the parts of its type lie, or the world as it was.
fn accepted(alloc: Global, db: HirDatabase) -> Result<CheckedWorld, HirDatabase>
    ensures laid_out { OnOk result (AreLaidOut db) }
    ensures handed_back { IfErr result (λ back. back ≡ db) }
{
    match CheckedWorld::new(alloc, db) {
        Ok(checked) => Ok(checked),
        Err((back, _fault)) => Err(back),
    }
}

/// Whether a typed body is right by itself. If it is, each node has a type, and evaluation can begin at its root.
fn is_checked_body(alloc: Global, db: &HirDatabase, body: &Body, infer: &InferenceResult) -> bool
    ensures { result ≡ true → IsCheckedBody body.now infer.now }
{
    match check_body(alloc, db, body, infer) {
        Ok(right) => right,
        Err(_) => false,
    }
}
