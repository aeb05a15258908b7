//! How large the cells of a body's locals are.

ghost use Rattle.std.specs.Prelude.{◌≡◌, ◌⊎◌, codes, All, Ok, Err, IfOk, IfErr};
ghost use Rattle.world.specs.Checked.{IsAlignment};
ghost use Rattle.world.specs.Lookups.{layout_of};
ghost use Rattle.mir.specs.declared.errors.MirEvalError as error;
ghost use Rattle.mir.specs.Errors.{layout_error_of};
ghost use Rattle.mir.specs.Memory.{cell_size_of, sizes_of};
ghost use Rattle.mir_rows.specs.Alignments.{HasAlignments};

use mir::{CellSize, Local, MirEvalError, layout_error_of};
use std::alloc::Global;
use world::{HirDatabase, List, Text, TryClone, Ty};

/// The refusal of a local whose type has no layout.
fn without_layout(alloc: Global, ty: &Ty) -> MirEvalError
    ensures { (result ≡ error.NoMemory) ⊎ (result ≡ error.LayoutError (layout_error_of ty.now) ty.now) }
{
    let error = layout_error_of(ty);
    match ty.try_clone(alloc) {
        Ok(ty) => MirEvalError::LayoutError(error, ty),
        Err(_) => MirEvalError::NoMemory,
    }
}

/// The refusal of a local whose type has no size.
fn without_size(alloc: Global, ty: &Ty) -> MirEvalError
    ensures { (result ≡ error.NoMemory) ⊎ (result ≡ error.TypeIsUnsized ty.now (codes "no unsized local in extending stack")) }
{
    let Ok(ty) = ty.try_clone(alloc) else {
        return MirEvalError::NoMemory;
    };
    match Text::from_str(alloc, "no unsized local in extending stack") {
        Ok(text) => MirEvalError::TypeIsUnsized(ty, text),
        Err(_) => MirEvalError::NoMemory,
    }
}

/// How large a local's cell is.
#[tactic(auto, unfolding(mir::specs::Memory::cell_size_of), using(crate::proofs::Alignments::is_alignment))]
fn cell_size(alloc: Global, db: &HirDatabase, ty: &Ty) -> Result<CellSize, MirEvalError>
    requires { HasAlignments db.now }
    ensures ok { IfOk result (λ size. cell_size_of ty.now (layout_of db.now ty.now) ≡ Ok size) }
    ensures aligned { IfOk result (λ size. IsAlignment size.align) }
    ensures err { IfErr result (λ e. (e ≡ error.NoMemory) ⊎ (cell_size_of ty.now (layout_of db.now ty.now) ≡ Err e)) }
{
    let Some(layout) = db.layout_of(ty) else {
        return Err(without_layout(alloc, ty));
    };
    if !layout.sized {
        return Err(without_size(alloc, ty));
    }
    Ok(CellSize {
        size: layout.size,
        align: layout.align,
    })
}

/// How large the cells of locals are, in order.
pub fn sizes(
    alloc: Global,
    db: &HirDatabase,
    locals: &[Local],
) -> Result<List<CellSize>, MirEvalError>
    requires { HasAlignments db.now }
    ensures ok { IfOk result (λ sizes. sizes_of db.now locals.now ≡ Ok sizes) }
    ensures aligned { IfOk result (λ sizes. All (λ cell. IsAlignment cell.align) sizes) }
    ensures err { IfErr result (λ e. (e ≡ error.NoMemory) ⊎ (sizes_of db.now locals.now ≡ Err e)) }
{
    let mut sizes = List::new(alloc);
    for local in locals {
        let size = match cell_size(alloc, db, &local.ty) {
            Ok(size) => size,
            Err(error) => return Err(error),
        };
        if sizes.push(size).is_err() {
            return Err(MirEvalError::NoMemory);
        }
    }
    Ok(sizes)
}
