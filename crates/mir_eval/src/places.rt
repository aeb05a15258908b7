//! The cells of a body's locals, placed on the stack.

ghost use Rattle.std.specs.Prelude.{◌≡◌, ◌⊎◌, ◌++◌, All, Ok, Err, IfOk, IfErr, IfSome, OnErr};
ghost use Rattle.std.specs.Option.{option_to_list};
ghost use Rattle.world.specs.Checked.{IsAlignment};
ghost use Rattle.mir.specs.declared.errors.MirEvalError as error;
ghost use Rattle.mir.specs.Areas.{after_push};
ghost use Rattle.mir.specs.Memory.{pushed, cells_of};
ghost use Rattle.mir_rows.specs.Alignments.{HasAlignments};
ghost use Rattle.mir_rows.specs.Places.{HasEnd, HaveEnds};

use mir::{CellSize, Interval, Local, MemFault, MirEvalError};
use mir_mem::Memory;
use mir_rows::sizes;
use std::alloc::Global;
use world::{HirDatabase, List, NoMemory};

/// New cells of these sizes, in order, at the end of the stack: all of them, or none.
pub(crate) fn push<M: Memory>(
    memory: &mut M,
    sizes: &List<CellSize>,
) -> Result<List<Interval>, MirEvalError>
    requires { All (λ cell. IsAlignment cell.align) sizes.now }
    ensures ok { IfOk result (λ cells. pushed (after_push (M.areas memory.old) sizes.now) ≡ Ok (cells, M.areas memory.new)) }
    ensures ends { IfOk result HaveEnds }
    ensures err { IfErr result (λ e. (e ≡ error.NoMemory) ⊎ (pushed (after_push (M.areas memory.old) sizes.now) ≡ Err e)) }
    ensures kept { OnErr result (M.areas memory.new ≡ M.areas memory.old) }
{
    match memory.push_cells(sizes) {
        Ok(cells) => Ok(cells),
        Err(MemFault::NoMemory) => Err(MirEvalError::NoMemory),
        Err(_) => Err(MirEvalError::MemoryLimitExceeded),
    }
}

/// A new cell for each local in order, at the end of the stack: all of them, or none. A local whose type has no layout or no
/// size is refused before a stack that would pass its limit, wherever it stands.
#[tactic(auto, unfolding(mir::specs::Memory::cells_of))]
pub(crate) fn lay_out<M: Memory>(
    alloc: Global,
    db: &HirDatabase,
    locals: &[Local],
    memory: &mut M,
) -> Result<List<Interval>, MirEvalError>
    requires { HasAlignments db.now }
    ensures ok { IfOk result (λ cells. cells_of db.now locals.now (M.areas memory.old) ≡ Ok (cells, M.areas memory.new)) }
    ensures ends { IfOk result HaveEnds }
    ensures err { IfErr result (λ e. (e ≡ error.NoMemory) ⊎ (cells_of db.now locals.now (M.areas memory.old) ≡ Err e)) }
    ensures kept { OnErr result (M.areas memory.new ≡ M.areas memory.old) }
{
    let sizes = match sizes(alloc, db, locals) {
        Ok(sizes) => sizes,
        Err(error) => return Err(error),
    };
    push(memory, &sizes)
}

/// Cells behind another one, where there is one, in a list that is used again.
pub(crate) fn listed(
    room: Vec<Interval>,
    first: Option<Interval>,
    others: &[Interval],
) -> Result<Vec<Interval>, NoMemory>
    requires first { IfSome first HasEnd }
    requires others { HaveEnds others.now }
    ensures cells { IfOk result (λ cells. cells.items ≡ option_to_list first ++ others.now) }
    ensures ends { IfOk result (λ cells. HaveEnds cells.items) }
{
    let mut cells = room;
    cells.clear();
    if let Some(cell) = first {
        cells.push(cell)?;
    }
    cells.extend_from_slice(others)?;
    Ok(cells)
}
