//! Values that are made of operands: one value again and again, arrays, tuples, and structs.

ghost use Rattle.std.specs.Prelude.{◌≡◌, ℕ, List, replicate, is_some, slice_get, Some, Err};
ghost use Rattle.std.specs.Option.{option_copied};
ghost use Rattle.numbers.specs.Constants.{number_in};
ghost use Rattle.mir.specs.declared.address.Interval.{Interval};
ghost use Rattle.mir.specs.Run.{aggregated, composed, copied, joined, operand_bytes, operands_bytes, placed_parts, repeats};
ghost use Rattle.mir_mem.specs.Construction.{placed_at};
ghost use Rattle.mir_eval.specs.declared.faults.Fault.TheVariants.{NoMemory};
ghost use Rattle.mir_eval.specs.Frames.{frame_of};
ghost use Rattle.mir_eval.specs.Steps.{bytes_of, left_with, OrNoMemory};

use crate::cells::write;
use crate::faults::Fault;
use crate::frames::StackFrame;
use crate::steps::operand;
use mir::{AggregateKind, Interval, Operand, OperandKind};
use mir_mem::{Memory, append, is_too_long, put_view, repeat, zeros};
use mir_rows::struct_layout;
use numbers::number_in;
use world::{Bytes, Const, Layout};

/// Copies bytes that were computed to a cell.
#[tactic(auto, unfolding(mir::specs::Run::copied))]
pub(crate) fn assign_bytes<M: Memory>(
    memory: &mut M,
    to: Interval,
    made: Result<Bytes, Fault>,
) -> Result<(), Fault>
    ensures copied { left_with (M.areas memory.new) result ≡ copied (M.areas memory.old) (Some to) (bytes_of made) }
    ensures memory { made ≡ Err NoMemory → result ≡ Err NoMemory }
{
    match made {
        Ok(bytes) => write(memory, to, bytes.as_slice()),
        Err(fault) => Err(fault),
    }
}

/// The bytes of an operand, as often as a constant says. Where these are more than the memory has, it is the fault of writing them, and
/// they aren't made.
#[tactic(auto, unfolding(mir::specs::Run::repeats))]
pub(crate) fn repeated<M: Memory>(
    frame: StackFrame<'_, '_>,
    memory: &M,
    kind: &OperandKind,
    len: &Const,
) -> Result<Bytes, Fault>
    ensures { (to : Interval) → OrNoMemory result (copied (M.areas memory.now) (Some to) (bytes_of result) ≡ copied (M.areas memory.now) (Some to) (repeats (number_in len.now) (operand_bytes (frame_of frame.entry) (M.areas memory.now) kind.now))) }
{
    let Some(count) = number_in(len) else {
        return Err(Fault::NoCount);
    };
    let Some(view) = operand(frame, memory, kind) else {
        return Err(Fault::BadRead);
    };
    if is_too_long(memory, view.len(), count) {
        return Err(Fault::BadWrite);
    }
    match repeat(frame.program.alloc, &view, count) {
        Ok(bytes) => Ok(bytes),
        Err(_) => Err(Fault::NoMemory),
    }
}

/// Whether each of these operands has bytes now.
fn are_readable<M: Memory>(frame: StackFrame<'_, '_>, memory: &M, operands: &[Operand]) -> bool
    ensures { result ≡ is_some (operands_bytes (frame_of frame.entry) (M.areas memory.now) operands.now) }
{
    for part in operands {
        match operand(frame, memory, &part.kind) {
            Some(_view) => {}
            None => return false,
        }
    }
    true
}

/// The bytes of operands, one behind another.
fn joined<M: Memory>(
    frame: StackFrame<'_, '_>,
    memory: &M,
    operands: &[Operand],
) -> Result<Bytes, Fault>
    ensures { OrNoMemory result (bytes_of result ≡ joined (operands_bytes (frame_of frame.entry) (M.areas memory.now) operands.now)) }
{
    let mut all = Vec::new(frame.program.alloc);
    for part in operands {
        let Some(view) = operand(frame, memory, &part.kind) else {
            return Err(Fault::BadRead);
        };
        if append(&mut all, &view).is_err() {
            return Err(Fault::NoMemory);
        }
    }
    Ok(Bytes::from_vec(all))
}

/// Puts the bytes of an operand where a layout says that the part at place `i` begins.
#[tactic(auto, unfolding(mir_mem::specs::Construction::placed_at))]
fn put_operand<M: Memory>(
    frame: StackFrame<'_, '_>,
    memory: &M,
    all: &mut [u8],
    layout: &Layout,
    i: usize,
    kind: &OperandKind,
) -> Result<(), Fault>
    ensures { (part : List ℕ) → operand_bytes (frame_of frame.entry) (M.areas memory.now) kind.now ≡ Some part → OrNoMemory result (left_with all.new result ≡ placed_at layout.now.size (slice_get layout.now.offsets i) part all.old) }
{
    let Some(view) = operand(frame, memory, kind) else {
        return Err(Fault::BadRead);
    };
    let Some(offset) = layout.offsets.get(i as u64) else {
        return Err(Fault::NoOffset);
    };
    match put_view(frame.program.alloc, all, *offset, &view) {
        Ok(true) => Ok(()),
        Ok(false) => Err(Fault::PartOutside {
            size: layout.size,
            offset: *offset,
        }),
        Err(_) => Err(Fault::NoMemory),
    }
}

/// The bytes of a value with a layout, which has operands as its parts.
fn laid_out<M: Memory>(
    frame: StackFrame<'_, '_>,
    memory: &M,
    layout: &Layout,
    operands: &[Operand],
) -> Result<Bytes, Fault>
    ensures { (parts : List (List ℕ)) → operands_bytes (frame_of frame.entry) (M.areas memory.now) operands.now ≡ Some parts → OrNoMemory result (bytes_of result ≡ placed_parts layout.now.size layout.now.offsets parts (replicate layout.now.size 0)) }
{
    let Ok(mut all) = zeros(frame.program.alloc, layout.size) else {
        return Err(Fault::NoMemory);
    };
    let mut i: usize = 0;
    while i < operands.len() {
        match put_operand(frame, memory, &mut all, layout, i, &operands[i].kind) {
            Ok(()) => {}
            Err(fault) => return Err(fault),
        }
        i += 1;
    }
    Ok(Bytes::from_vec(all))
}

/// The bytes of a value of a type with this layout, by the operands that it is made of.
#[tactic(auto, unfolding(mir::specs::Run::laid_out))]
fn composed<M: Memory>(
    frame: StackFrame<'_, '_>,
    memory: &M,
    layout: Option<&Layout>,
    operands: &[Operand],
) -> Result<Bytes, Fault>
    ensures { OrNoMemory result (bytes_of result ≡ composed (option_copied layout.entry) (operands_bytes (frame_of frame.entry) (M.areas memory.now) operands.now)) }
{
    if !are_readable(frame, memory, operands) {
        return Err(Fault::BadRead);
    }
    match layout {
        Some(layout) => laid_out(frame, memory, layout, operands),
        None => Err(Fault::NoLayout),
    }
}

/// The bytes of an array, a tuple or a struct, by the operands that it is made of.
#[tactic(auto, unfolding(mir::specs::Run::aggregated))]
pub(crate) fn aggregate<M: Memory>(
    frame: StackFrame<'_, '_>,
    memory: &M,
    kind: &AggregateKind,
    operands: &[Operand],
) -> Result<Bytes, Fault>
    ensures { OrNoMemory result (bytes_of result ≡ aggregated frame.entry.program.now.db.now kind.now (operands_bytes (frame_of frame.entry) (M.areas memory.now) operands.now)) }
{
    match kind {
        AggregateKind::Array(_) => joined(frame, memory, operands),
        AggregateKind::Tuple(ty) => {
            composed(frame, memory, frame.program.db.layout_of(ty), operands)
        }
        AggregateKind::Adt(id, args) => {
            let program = frame.program;
            match struct_layout(program.alloc, program.db, *id, args) {
                Ok(layout) => composed(frame, memory, layout, operands),
                Err(_) => Err(Fault::NoMemory),
            }
        }
    }
}
