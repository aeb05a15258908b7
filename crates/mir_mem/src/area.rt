//! One area of a memory, the stack or the heap: bytes that are read, written and copied by their offsets.

ghost use Rattle.std.specs.Prelude.{◌≡◌, ◌+◌, ◌-◌, ◌≤◌, ◌↔◌, ◌++◌, IsTrue, Some, None, length, take, drop, replicate, OnOk, OnErr};
ghost use Rattle.std.specs.Bool.{OnTrue, OnFalse};
ghost use Rattle.std.specs.Option.{option_copied};
ghost use Rattle.mir.specs.Areas.{part_of, with_part, grown_to};

use crate::moves::move_bytes;
use world::NoMemory;

/// Whether an area has `size` bytes from an offset on.
#[inline(always)]
fn has(area: &[u8], place: u64, size: u64) -> bool
    ensures { IsTrue result ↔ (place + size ≤ length area.now) }
{
    match place.checked_add(size) {
        Some(end) => end <= area.len() as u64,
        None => false,
    }
}

/// The `size` bytes of an area from an offset on, if it has that many there.
#[tactic(auto, unfolding(mir::specs::Areas::part_of))]
#[inline(always)]
pub(crate) fn part_of(area: &[u8], place: u64, size: u64) -> Option<&[u8]>
    ensures { option_copied result ≡ part_of area.now place size }
{
    if has(area, place, size) {
        Some(&area[place as usize..(place + size) as usize])
    } else {
        None
    }
}

/// Writes bytes from an offset on, if the area has that many there; returns whether it has.
#[tactic(auto, unfolding(mir::specs::Areas::with_part))]
#[inline(always)]
pub(crate) fn write_part(area: &mut [u8], place: u64, bytes: &[u8]) -> bool
    ensures written { OnTrue result (with_part area.old place bytes.now ≡ Some area.new) }
    ensures refused { OnFalse result (with_part area.old place bytes.now ≡ None) }
    ensures kept { OnFalse result (area.new ≡ area.old) }
{
    let size = bytes.len() as u64;
    if has(area, place, size) {
        area[place as usize..(place + size) as usize].copy_from_slice(bytes);
        true
    } else {
        false
    }
}

/// Copies bytes of an area to another offset of it, if the area has that many there; returns whether it has.
#[tactic(auto, unfolding(mir::specs::Areas::with_part))]
#[inline]
pub(crate) fn copy_part(area: &mut [u8], to: u64, from: u64, size: u64) -> bool
    requires { from + size ≤ length area.old }
    ensures written { OnTrue result (with_part area.old to (take size (drop from area.old)) ≡ Some area.new) }
    ensures refused { OnFalse result (with_part area.old to (take size (drop from area.old)) ≡ None) }
    ensures kept { OnFalse result (area.new ≡ area.old) }
{
    if has(area, to, size) {
        move_bytes(area, from as usize, size as usize, to as usize);
        true
    } else {
        false
    }
}

/// Adds zeros at the end of an area, up to a length that is no less than its own.
pub(crate) fn grow(area: &mut Vec<u8>, end: u64) -> Result<(), NoMemory>
    requires { length area.old.items ≤ end }
    ensures grown { OnOk result (area.new.items ≡ grown_to end area.old.items) }
    ensures kept { OnErr result (area.new.items ≡ area.old.items) }
{
    area.resize(end as usize, 0)?;
    Ok(())
}
