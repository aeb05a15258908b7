//! The heights of types.

ghost use Rattle.std.specs.Prelude.{◌≡◌, ◌<◌, IfOk, OnOk, Some, length, map, nat_le};
ghost use Rattle.source_meaning.specs.Heights.{first_heights, greatest, height, height_among, heights};
ghost use Rattle.heights.specs.Known.{AreHeights, at_most};

use crate::parts::{part_places, row_place};
use std::alloc::Global;
use world::{HirDatabase, Map, NoMemory, Ty};

/// A number, where it is at most `levels`.
fn at_most(height: u32, levels: u32) -> Option<u32>
    ensures { result ≡ at_most height levels }
{
    if height <= levels { Some(height) } else { None }
}

/// The height of the type of a row of `layouts`, where it is at most `levels`. Heights once found are `known` by their places, so each
/// type is gone through once, however many others have it as a part.
#[cycle(heights)]
fn height_at(
    alloc: Global,
    db: &HirDatabase,
    known: &mut Map<u64, u32>,
    place: u64,
    levels: u32,
) -> Result<Option<u32>, NoMemory>
    requires { AreHeights db.now known.old }
    ensures height { IfOk result (λ height. height ≡ at_most (height_among (heights db.now) (Some place)) levels) }
    ensures known { OnOk result (AreHeights db.now known.new) }
{
    if levels == 0 {
        return Ok(None);
    }
    if let Some(height) = known.get(&place) {
        return Ok(at_most(*height, levels));
    }
    let Some(row) = db.layouts.at(place) else {
        return Ok(Some(1));
    };
    let parts = part_places(alloc, db, &row.0)?;
    let Some(highest) = highest(alloc, db, known, place, parts.as_slice(), levels - 1)? else {
        return Ok(None);
    };
    known.insert(place, highest + 1)?;
    Ok(Some(highest + 1))
}

/// The height of a part whose type has this place in `layouts`, as seen from a row: 1 where the place isn't above the row, or there is none. None where it is more than `levels`.
#[cycle(heights)]
fn part_height(
    alloc: Global,
    db: &HirDatabase,
    known: &mut Map<u64, u32>,
    row: u64,
    part: Option<u64>,
    levels: u32,
) -> Result<Option<u32>, NoMemory>
    requires row { row < length db.now.layouts }
    requires known { AreHeights db.now known.old }
    ensures height { IfOk result (λ height. height ≡ at_most (height_among (first_heights db.now row) part) levels) }
    ensures known { OnOk result (AreHeights db.now known.new) }
{
    match part {
        Some(place) => {
            if place < row {
                height_at(alloc, db, known, place, levels)
            } else {
                Ok(at_most(1, levels))
            }
        }
        None => Ok(at_most(1, levels)),
    }
}

/// The greatest height of parts whose types have these places in `layouts`, as seen from a row. None where it is more than `levels`.
#[cycle(heights)]
fn highest(
    alloc: Global,
    db: &HirDatabase,
    known: &mut Map<u64, u32>,
    row: u64,
    parts: &[Option<u64>],
    levels: u32,
) -> Result<Option<u32>, NoMemory>
    requires row { row < length db.now.layouts }
    requires known { AreHeights db.now known.old }
    ensures highest { IfOk result (λ highest. highest ≡ at_most (greatest (map (height_among (first_heights db.now row)) parts.now)) levels) }
    ensures known { OnOk result (AreHeights db.now known.new) }
{
    let mut highest = 0;
    for part in parts {
        let Some(height) = part_height(alloc, db, known, row, *part, levels)? else {
            return Ok(None);
        };
        highest = highest.max(height);
    }
    Ok(Some(highest))
}

/// Whether a value of the type has at most `levels` levels: one for itself, and, where it has parts, those of its highest part. It looks no deeper than `levels`.
#[tactic(auto, unfolding(source_meaning::specs::Heights::height))]
pub fn is_within(alloc: Global, db: &HirDatabase, ty: &Ty, levels: u32) -> Result<bool, NoMemory>
    ensures { IfOk result (λ within. within ≡ nat_le (height db.now ty.now) levels) }
{
    match row_place(db, ty) {
        Some(place) => {
            let mut known = Map::new(alloc);
            let height = height_at(alloc, db, &mut known, place, levels)?;
            Ok(height.is_some())
        }
        None => Ok(levels > 0),
    }
}
