//! What a run hands out at its end.

ghost use Rattle.std.specs.Prelude.{◌≡◌, ◌++◌, [], map, Err, IfOk, Some, option_and_then, slice_get};
ghost use Rattle.std.specs.List.{concat};
ghost use Rattle.std.specs.Option.{option_to_list};
ghost use Rattle.mir.specs.declared.errors.MirEvalError as error;
ghost use Rattle.mir.specs.Memory.{cell_bytes};
ghost use Rattle.mir.specs.Run.{bad_read, returned};
ghost use Rattle.mir_eval.specs.Frames.{callers};
ghost use Rattle.mir_eval.specs.Machine.{height_of, on_levels, value_of, wrapped, outcome_of};

use crate::cells::read;
use crate::faults::{Fault, to_error};
use crate::frames::Suspended;
use heights::is_within;
use mir::{Interval, LocalId, MirBody, MirEvalError, TrailEntry};
use mir_mem::{Memory, View, copy_of};
use mir_rows::cell_of;
use std::alloc::Global;
use world::{Box, Const, HirDatabase, List, MemoryMap, NoMemory, TryClone, ValueConst};

/// The calls that are open, the innermost first, behind one whose callee's body couldn't be got, if there is one.
fn trail(
    alloc: Global,
    first: Option<TrailEntry>,
    below: &[Suspended<'_>],
) -> Result<List<TrailEntry>, NoMemory>
    ensures { IfOk result (λ trail. trail ≡ option_to_list first ++ map (λ caller. caller.call) (callers below.now)) }
{
    let mut trail = List::new(alloc);
    if let Some(entry) = first {
        trail.push(entry)?;
    }
    let mut i = below.len();
    while i > 0 {
        i -= 1;
        trail.push(below[i].call)?;
    }
    Ok(trail)
}

/// A fault, wrapped once with the calls that it passed through; want of memory is passed on.
pub(crate) fn faulted(
    alloc: Global,
    error: MirEvalError,
    first: Option<TrailEntry>,
    below: &[Suspended<'_>],
) -> Result<Result<Const, MirEvalError>, NoMemory>
    ensures { IfOk result (λ r. r ≡ Err (wrapped error (option_to_list first ++ map (λ caller. caller.call) (callers below.now)))) }
{
    match error {
        MirEvalError::NoMemory => Ok(Err(MirEvalError::NoMemory)),
        other => {
            let trail = trail(alloc, first, below)?;
            let inner = Box::new(alloc, other)?;
            Ok(Err(MirEvalError::InFunction(inner, trail)))
        }
    }
}

/// A read of a local that isn't there, in a run without callers.
fn bad_slot(alloc: Global) -> Result<Result<Const, MirEvalError>, NoMemory>
    ensures { IfOk result (λ r. r ≡ Err (error.InFunction bad_read [])) }
{
    let inner = to_error(alloc, Fault::BadRead)?;
    let inner = Box::new(alloc, inner)?;
    Ok(Err(MirEvalError::InFunction(inner, List::new(alloc))))
}

/// The value of a body whose return slot has these bytes, with `levels` levels of nesting left for it.
fn value(
    alloc: Global,
    db: &HirDatabase,
    body: &MirBody,
    bytes: &View<'_>,
    levels: u32,
) -> Result<Result<Const, MirEvalError>, NoMemory>
    ensures { IfOk result (λ r. r ≡ on_levels (height_of db.now body.now) levels (value_of body.now (concat bytes.now))) }
{
    match body.locals.get(0) {
        Some(slot) => {
            if !is_within(alloc, db, &slot.ty, levels)? {
                return Ok(Err(MirEvalError::StackOverflow));
            }
            let ty = slot.ty.try_clone(alloc)?;
            let memory = copy_of(alloc, bytes)?;
            let value = ValueConst {
                ty,
                memory,
                memory_map: MemoryMap::Empty,
            };
            Ok(Ok(Const::Value(value)))
        }
        None => bad_slot(alloc),
    }
}

/// What a run in a world hands out whose body returned that none called, with `levels` levels of nesting left for its value.
#[tactic(auto, unfolding(crate::specs::Machine::outcome_of))]
pub(crate) fn returned<M: Memory>(
    alloc: Global,
    db: &HirDatabase,
    body: &MirBody,
    cells: &[Interval],
    memory: &M,
    levels: u32,
) -> Result<Result<Const, MirEvalError>, NoMemory>
    ensures { IfOk result (λ r. outcome_of db.now levels body.now (returned (option_and_then (cell_bytes (M.areas memory.now)) (slice_get cells.now 0))) ≡ Some r) }
{
    match cell_of(cells, LocalId(0)) {
        Some(cell) => match read(memory, cell) {
            Some(bytes) => value(alloc, db, body, &bytes, levels),
            None => bad_slot(alloc),
        },
        None => bad_slot(alloc),
    }
}
