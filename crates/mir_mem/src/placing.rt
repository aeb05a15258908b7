//! The addresses of new cells.

ghost use Rattle.std.specs.Prelude.{◌≡◌, ◌+◌, ◌^◌, ◌<◌, ◌≤◌, ◌⊎◌, [], All, IfSome, IfNone, IfOk, IfErr};
ghost use Rattle.world.specs.Checked.{IsAlignment};
ghost use Rattle.mir.specs.declared.mem_fault.MemFault.TheVariants as fault;
ghost use Rattle.mir.specs.Areas.{start_behind, end_behind, cells_behind, length_behind};

use mir::{Address, CellSize, Interval, MemFault};
use std::alloc::Global;
use world::{List, NoMemory};

/// The intervals of cells, and the length of the area with all of them.
#[derive(Drop)]
pub(crate) struct Placed {
    pub cells: List<Interval>,
    pub length: u64,
}

/// The end of `size` bytes that begin at offset `start`, if it is at most `bound`.
pub(crate) fn end_within(start: u64, size: u64, bound: u64) -> Option<u64>
    ensures some { IfSome result (λ end. (end ≡ start + size) × (end ≤ bound)) }
    ensures none { IfNone result (bound < start + size) }
{
    let end = start.checked_add(size)?;
    if end <= bound { Some(end) } else { None }
}

/// An empty list with room for `count` intervals.
fn with_room(alloc: Global, count: usize) -> Result<List<Interval>, NoMemory>
    ensures { IfOk result (λ list. list ≡ []) }
{
    let items = Vec::with_capacity(alloc, count)?;
    Ok(List::from_vec(items))
}

/// The intervals of cells that are placed in order behind `length` bytes, if they end within `bound` bytes.
#[tactic(auto, unfolding(mir::specs::Areas::cells_behind, mir::specs::Areas::length_behind))]
pub(crate) fn place(
    alloc: Global,
    cells: &[CellSize],
    length: u64,
    bound: u64,
) -> Result<Placed, MemFault>
    requires aligned { All (λ cell. IsAlignment cell.align) cells.now }
    requires length { length ≤ bound }
    requires bound { bound ≤ 2 ^ 59 + 1 }
    ensures cells { IfOk result (λ placed. placed.cells ≡ cells_behind length cells.now) }
    ensures length { IfOk result (λ placed. placed.length ≡ length_behind length cells.now) }
    ensures grows { IfOk result (λ placed. length ≤ placed.length) }
    ensures bounded { IfOk result (λ placed. placed.length ≤ bound) }
    ensures err { IfErr result (λ e. (e ≡ fault.NoMemory) ⊎ ((e ≡ fault.MemoryLimitExceeded) × (bound < length_behind length cells.now))) }
{
    let mut all = with_room(alloc, cells.len())?;
    let mut end = length;
    for cell in cells {
        let start = end.next_multiple_of(cell.align);
        let Some(next) = end_within(start, cell.size, bound) else {
            return Err(MemFault::MemoryLimitExceeded);
        };
        all.push(Interval {
            addr: Address::Stack(start),
            size: cell.size,
        })?;
        end = next;
    }
    Ok(Placed {
        cells: all,
        length: end,
    })
}
