//! The check of a world, one row of its table after another.
ghost use Rattle.std.specs.Prelude.{OnOk, IfErr};
ghost use Rattle.world.specs.Checked.{IsChecked};
ghost use Rattle.world_check.specs.Rows.{Holds, IsRefusal, IsRefusalAt};

use crate::agreement::{wrong_agreement, wrong_layout, wrong_resolution, wrong_tag};
use crate::place::place_text;
use crate::ranges::wrong_id;
use crate::trees::{wrong_label, wrong_tree};
use crate::{CheckFault, CheckRow, InvalidWorld, Place};
use std::alloc::Global;
use world::HirDatabase;

/// The fault for a row and a place that doesn't meet it.
fn refusal(alloc: Global, row: CheckRow, place: Place) -> CheckFault
    ensures { IsRefusalAt row place result }
{
    match place_text(alloc, place) {
        Ok(place) => CheckFault::InvalidWorld(InvalidWorld { row, place }),
        Err(_) => CheckFault::NoMemory,
    }
}

/// Checks a world. In a world that passes, each place meets each row of the check's table. A fault names the
/// first row that some place doesn't meet and the first such place, or says that memory ran out.
pub fn check(alloc: Global, db: &HirDatabase) -> Result<(), CheckFault>
    ensures ok { OnOk result (IsChecked db.now) }
    ensures holds { OnOk result (Holds db.now) }
    ensures refused { IfErr result (IsRefusal db.now) }
{
    if let Some(place) = wrong_id(alloc, db)? {
        return Err(refusal(alloc, CheckRow::C1, place));
    }
    if let Some(place) = wrong_tree(alloc, db)? {
        return Err(refusal(alloc, CheckRow::C2, place));
    }
    if let Some(place) = wrong_label(alloc, db)? {
        return Err(refusal(alloc, CheckRow::C3, place));
    }
    if let Some(place) = wrong_resolution(db) {
        return Err(refusal(alloc, CheckRow::C4, place));
    }
    if let Some(place) = wrong_layout(alloc, db)? {
        return Err(refusal(alloc, CheckRow::C5, place));
    }
    if let Some(place) = wrong_tag(db) {
        return Err(refusal(alloc, CheckRow::C6, place));
    }
    if let Some(place) = wrong_agreement(alloc, db)? {
        return Err(refusal(alloc, CheckRow::C7, place));
    }
    Ok(())
}
