//! Whether the variants' rows and their enums' lists of variants agree, in both directions.
ghost use Rattle.std.specs.Prelude.{◌≡◌, ℕ, ◌<◌, false, true, length, slice_get, slice_index_or, Some, None, Decides, IfOk, IfSome};
ghost use Rattle.check_items.specs.Agree.{IsRowListedRight, listed_at};

use std::alloc::Global;
use world::{HirDatabase, NoMemory, VariantRow};

/// The id of the variant at index `i` in the list of enum `e`.
fn listed_at(db: &HirDatabase, e: u64, i: u64) -> Option<u64>
    ensures { result ≡ listed_at db.now e i }
{
    let row = db.enums.get(e)?;
    let id = row.variants.get(i)?;
    Some(id.0 as u64)
}

/// Whether the variant with the id `v` stands at its row's index in the list of its row's enum.
fn is_listed(db: &HirDatabase, v: u64, row: &VariantRow) -> bool
    ensures { Decides result (listed_at db.now row.now.parent.0 row.now.index ≡ Some v) }
{
    match listed_at(db, row.parent.0 as u64, row.index as u64) {
        Some(id) => id == v,
        None => false,
    }
}

/// Whether variant `v`, if there is one, has enum `e` and index `i` in its row.
fn is_own_place(db: &HirDatabase, v: u64, e: u64, i: u64) -> bool
    ensures { Decides result (IfSome (slice_get db.now.variants v) (λ row. (e ≡ row.parent.0) × (i ≡ row.index))) }
{
    match db.variants.get(v) {
        Some(row) => row.parent.0 as u64 == e && row.index as u64 == i,
        None => true,
    }
}

/// Marks the variants that stand in an enum's list at a place other than their row's.
fn mark_misplaced(db: &HirDatabase, marks: &mut [bool])
    requires none { (v : ℕ) → slice_index_or marks.old v false ≡ false }
    requires len { length marks.old ≡ length db.now.variants }
    ensures len { length marks.new ≡ length db.now.variants }
    ensures wrong { (v : ℕ) → slice_index_or marks.new v false ≡ true → IsRowListedRight db.now v → ⊥ }
    ensures own { (v e i : ℕ) → slice_index_or marks.new v false ≡ false → listed_at db.now e i ≡ Some v
        → IfSome (slice_get db.now.variants v) (λ row. (e ≡ row.parent.0) × (i ≡ row.index)) }
{
    let enums = db.enums.as_slice();
    for (e, row) in enums.iter().enumerate() {
        let ids = row.variants.as_slice();
        for (i, id) in ids.iter().enumerate() {
            if !is_own_place(db, id.0 as u64, e as u64, i as u64) {
                marks[id.0 as usize] = true;
            }
        }
    }
}

/// The id of the first variant that doesn't stand at its index in the list of its enum, or stands at
/// another place of an enum's list too. It fails only for want of memory.
pub fn wrong_variant(alloc: Global, db: &HirDatabase) -> Result<Option<u64>, NoMemory>
    ensures none { IfOk result (λ found. found ≡ None → (v : ℕ) → IsRowListedRight db.now v) }
    ensures wrong { IfOk result (λ found. IfSome found (λ v. IsRowListedRight db.now v → ⊥)) }
    ensures first { IfOk result (λ found. IfSome found (λ v. (w : ℕ) → w < v → IsRowListedRight db.now w)) }
{
    let mut marks = vec![in alloc; false; db.variants.len() as usize]?;
    mark_misplaced(db, &mut marks);
    let rows = db.variants.as_slice();
    for (v, row) in rows.iter().enumerate() {
        if marks[v] || !is_listed(db, v as u64, row) {
            return Ok(Some(v as u64));
        }
    }
    Ok(None)
}
