//! The cells of locals, and the bytes in them.

ghost use Rattle.std.specs.Prelude.{◌≡◌, length, option_map, IfNone, IfSome, OnErr, Some, Ok};
ghost use Rattle.std.specs.List.{concat};
ghost use Rattle.numbers.specs.Bytes.{value_of};
ghost use Rattle.mir.specs.Memory.{cell_bytes};
ghost use Rattle.mir.specs.Run.{copied, read};
ghost use Rattle.mir_eval.specs.Steps.{left_with};

use crate::faults::Fault;
use mir::{Address, Interval, LocalId};
use mir_mem::{Memory, View, gather, whole};
use mir_rows::{Numbers, cell_of};
use numbers::{number_of, word8};

/// The cells of locals over a memory, in which the locals that are used as indices hold numbers.
pub(crate) struct Held<'r, M> {
    pub memory: &'r M,
    pub cells: &'r [Interval],
}

impl<M> Drop for Held<'_, M> {
    fn drop(self) {
        let Held {
            memory: _memory,
            cells: _cells,
        } = self;
    }
}

impl<M: Memory> Numbers for Held<'_, M> {
    ghost use Rattle.mir.specs.Memory.{number_held};

    ghost held = { λ locals. number_held (M.areas locals.memory.now) locals.cells.now };

    #[inline(always)]
    #[tactic(auto, unfolding(mir::specs::Memory::number_held))]
    fn number(&self, local: LocalId) -> Option<u128> {
        let Some(cell) = cell_of(self.cells, local) else {
            return None;
        };
        let Some(view) = read(self.memory, cell) else {
            return None;
        };
        if let Some(word) = word_in(&view) {
            return Some(word as u128);
        }
        if view.len() > 16 {
            return None;
        }
        match gather(&view) {
            Some(bytes) => Some(number_of(bytes.bytes())),
            None => None,
        }
    }
}

/// The number that a view is, where that has 8 bytes in one piece.
#[inline(always)]
fn word_in(view: &View<'_>) -> Option<u64>
    ensures { IfSome result (λ word. (word ≡ value_of (concat view.now)) × (length (concat view.now) ≡ 8)) }
{
    let bytes = whole(view)?;
    if bytes.len() == 8 {
        Some(word8(bytes))
    } else {
        None
    }
}

/// The bytes of a cell, where the memory has them.
#[inline(always)]
#[tactic(auto, unfolding(mir::specs::Areas::reading))]
pub(crate) fn read<M: Memory>(memory: &M, cell: Interval) -> Option<View<'_>>
    ensures { option_map concat result ≡ cell_bytes (M.areas memory.now) cell }
{
    match memory.read(cell.addr, cell.size) {
        Ok(view) => Some(view),
        Err(_fault) => None,
    }
}

/// Writes bytes from the start of a cell on, where the memory has as many there, and without `FAR` the cell lies on the stack. Where they can't be written,
/// nothing has changed.
#[inline(always)]
#[tactic(auto, unfolding(mir::specs::Areas::after_write, mir::specs::Run::copied))]
pub(crate) fn put<M: Memory, const FAR: bool>(
    memory: &mut M,
    to: Interval,
    bytes: &[u8],
) -> Option<()>
    ensures done { IfSome result (λ done. Ok (M.areas memory.new) ≡ copied (M.areas memory.old) (Some to) (Ok bytes.now)) }
    ensures kept { IfNone result (M.areas memory.new ≡ M.areas memory.old) }
{
    if !FAR && !matches!(to.addr, Address::Stack(_)) {
        return None;
    }
    match memory.write(to.addr, bytes) {
        Ok(()) => Some(()),
        Err(_) => None,
    }
}

/// Writes bytes from the start of a cell on, where the memory has as many there.
#[inline(always)]
#[tactic(auto, unfolding(mir::specs::Areas::after_write, mir::specs::Run::copied))]
pub(crate) fn write<M: Memory>(memory: &mut M, to: Interval, bytes: &[u8]) -> Result<(), Fault>
    ensures { left_with (M.areas memory.new) result ≡ copied (M.areas memory.old) (Some to) (Ok bytes.now) }
{
    match memory.write(to.addr, bytes) {
        Ok(()) => Ok(()),
        Err(_) => Err(Fault::BadWrite),
    }
}

/// Copies the bytes of a cell to the start of another one, where the memory has both.
#[inline(always)]
#[tactic(auto, unfolding(mir::specs::Areas::reading, mir::specs::Areas::after_write, mir::specs::Areas::after_copy, mir::specs::Run::copied))]
pub(crate) fn copy<M: Memory>(memory: &mut M, from: Interval, to: Interval) -> Result<(), Fault>
    ensures done { left_with (M.areas memory.new) result ≡ copied (M.areas memory.old) (Some to) (read (cell_bytes (M.areas memory.old) from)) }
    ensures kept { OnErr result (M.areas memory.new ≡ M.areas memory.old) }
{
    match memory.copy(to.addr, from) {
        Ok(()) => Ok(()),
        Err(_) => {
            if memory.read(from.addr, from.size).is_ok() {
                Err(Fault::BadWrite)
            } else {
                Err(Fault::BadRead)
            }
        }
    }
}
