//! Calls: what is called, the cells of its body, and its arguments.

ghost use Rattle.std.specs.Option.{ForSome};
ghost use Rattle.std.specs.Prelude.{◌≡◌, ◌⊎◌, Ok, Err, IfOk, IfErr, IfSome, option_map, option_and_then, slice_get};
ghost use Rattle.mir.specs.declared.errors.MirEvalError as error;
ghost use Rattle.mir_rows.specs.Alignments.{HasAlignments};
ghost use Rattle.mir_rows.specs.Callees.{AreSizes};
ghost use Rattle.mir.specs.Memory.{cells_of, number_held, sizes_of};
ghost use Rattle.mir.specs.Run.{calls_out, called_cells, copied, filled, function_in, operand_bytes, operand_type, read};
ghost use Rattle.mir_rows.specs.Places.{HasEnd, HaveEnds};
ghost use Rattle.mir_eval.specs.Calls.{call_is, function_is};
ghost use Rattle.mir_eval.specs.Frames.{frame_of};
ghost use Rattle.mir_eval.specs.Machine.{call_at};
ghost use Rattle.mir_eval.specs.Steps.{left_with};

use crate::cells::Held;
use crate::faults::Fault;
use crate::frames::{Program, StackFrame};
use crate::places::{lay_out, listed, push};
use crate::steps::assign_operand;
use mir::{
    BasicBlockId, CellSize, Interval, Local, LocalId, MirBody, MirEvalError, MirSpan, Operand,
    OperandKind, Place, TerminatorKind,
};
use mir_mem::Memory;
use mir_rows::{Callee, cell_of, is_out_of_bounds, place_type, some_out};
use std::alloc::Global;
use std::rc::Rc;
use world::{CallableDefId, FunctionId, GenericArgs, HirDatabase, List, Ty};

/// A call, as its terminator says it.
#[derive(Clone, Copy)]
pub(crate) struct Call<'r> {
    pub func: &'r Operand,
    pub args: &'r [Operand],
    pub destination: Place,
    pub target: Option<BasicBlockId>,
    pub span: MirSpan,
}

/// A function that is called, with its generic arguments.
#[derive(Clone, Copy)]
pub(crate) struct Function<'r> {
    pub id: FunctionId,
    pub args: &'r GenericArgs,
}

/// The call that ends a block.
#[tactic(auto, unfolding(crate::specs::Calls::call_is))]
pub(crate) fn call_at(body: &MirBody, block: BasicBlockId) -> Option<Call<'_>>
    ensures { option_map call_is result ≡ call_at body.now block.0 }
{
    match body.basic_blocks.get(block.0 as u64) {
        Some(block) => match &block.terminator {
            Some(terminator) => match &terminator.kind {
                TerminatorKind::Call {
                    func,
                    args,
                    destination,
                    target,
                    ..
                } => Some(Call {
                    func,
                    args: args.as_slice(),
                    destination: *destination,
                    target: *target,
                    span: terminator.span,
                }),
                _ => None,
            },
            None => None,
        },
        None => None,
    }
}

/// The function that a type names, with its generic arguments.
fn function_in(ty: &Ty) -> Option<Function<'_>>
    ensures { option_map function_is result ≡ function_in ty.now }
{
    match ty {
        Ty::FnDef(CallableDefId::FunctionId(id), args) => Some(Function { id: *id, args }),
        _ => None,
    }
}

/// The function that an operand's type names, with its generic arguments.
#[tactic(auto, unfolding(mir::specs::Run::operand_type))]
pub(crate) fn callee<'r>(
    db: &'r HirDatabase,
    body: &'r MirBody,
    func: &'r OperandKind,
) -> Option<Function<'r>>
    ensures { option_map function_is result ≡ option_and_then function_in (operand_type db.now body.now func.now) }
{
    match func {
        OperandKind::Copy(place) => match place_type(db, body, *place) {
            Some(ty) => function_in(ty),
            None => None,
        },
        OperandKind::Constant { ty, .. } => function_in(ty),
    }
}

/// Whether a call uses a place that is out of bounds: its destination, or that of an argument.
pub(crate) fn calls_out<M: Memory>(frame: StackFrame<'_, '_>, memory: &M, call: Call<'_>) -> bool
    ensures { result ≡ calls_out frame.entry.program.now.db.now frame.entry.body.now.body (number_held (M.areas memory.now) frame.entry.cells.now) (call_is call.entry) }
{
    let db = frame.program.db;
    let body = frame.body.body();
    let numbers = Held {
        memory,
        cells: frame.cells,
    };
    is_out_of_bounds(db, body, &numbers, call.destination)
        || some_out(db, body, &numbers, call.args)
}

/// New cells for locals, whose sizes may be known.
#[tactic(auto, unfolding(mir::specs::Memory::cells_of), using(mir_rows::proofs::SizedCells::sizes_aligned))]
fn other_cells<M: Memory>(
    alloc: Global,
    db: &HirDatabase,
    sizes: &Option<Rc<List<CellSize>>>,
    locals: &[Local],
    memory: &mut M,
) -> Result<List<Interval>, MirEvalError>
    requires aligned { HasAlignments db.now }
    requires sizes { ForSome sizes.now (λ sizes. sizes_of db.now locals.now ≡ Ok sizes.value) }
    ensures ok { IfOk result (λ cells. cells_of db.now locals.now (M.areas memory.old) ≡ Ok (cells, M.areas memory.new)) }
    ensures ends { IfOk result HaveEnds }
    ensures err { IfErr result (λ e. (e ≡ error.NoMemory) ⊎ (cells_of db.now locals.now (M.areas memory.old) ≡ Err e)) }
{
    match sizes {
        Some(sizes) => push(memory, sizes.as_ref()),
        None => lay_out(alloc, db, locals, memory),
    }
}

/// The cells of a called body: its return slot is the destination, where there is one, and the others are new ones at the end of
/// the stack. They are listed in `room`.
pub(crate) fn callee_cells<M: Memory>(
    alloc: Global,
    program: &Program<'_>,
    callee: &Callee<'_>,
    destination: Option<Interval>,
    room: Vec<Interval>,
    memory: &mut M,
) -> Result<Vec<Interval>, MirEvalError>
    requires aligned { HasAlignments program.now.db.now }
    requires sizes { ForSome callee.now.sizes (λ sizes. AreSizes program.now.db.now callee.now.body.value.body.locals sizes.value) }
    requires end { IfSome destination HasEnd }
    ensures ok { IfOk result (λ cells. called_cells program.now.db.now callee.now.body.value.body.locals destination (M.areas memory.old) ≡ Ok (cells.items, M.areas memory.new)) }
    ensures ends { IfOk result (λ cells. HaveEnds cells.items) }
    ensures err { IfErr result (λ e. (e ≡ error.NoMemory) ⊎ (called_cells program.now.db.now callee.now.body.value.body.locals destination (M.areas memory.old) ≡ Err e)) }
{
    let locals = callee.body.as_ref().body().locals.as_slice();
    let slot = if locals.is_empty() { None } else { destination };
    let placed = match slot {
        Some(_) => other_cells(alloc, program.db, &callee.sizes, &locals[1..], memory),
        None => lay_out(alloc, program.db, locals, memory),
    };
    let placed = match placed {
        Ok(placed) => placed,
        Err(error) => return Err(error),
    };
    match listed(room, slot, placed.as_slice()) {
        Ok(cells) => Ok(cells),
        Err(_) => Err(MirEvalError::NoMemory),
    }
}

/// Copies an argument to the local of its parameter.
#[tactic(auto, unfolding(mir::specs::Run::copied))]
fn fill_one<M: Memory>(
    caller: StackFrame<'_, '_>,
    memory: &mut M,
    cells: &[Interval],
    param: LocalId,
    arg: &Operand,
) -> Result<(), Fault>
    ensures { left_with (M.areas memory.new) result ≡ copied (M.areas memory.old) (slice_get cells.now param.0) (read (operand_bytes (frame_of caller.entry) (M.areas memory.old) arg.now.kind)) }
{
    match cell_of(cells, param) {
        Some(to) => assign_operand(caller, memory, to, &arg.kind),
        None => Err(Fault::BadWrite),
    }
}

/// Copies each argument to the local of its parameter.
#[tactic(auto, unfolding(mir::specs::Run::filled))]
pub(crate) fn fill<M: Memory>(
    caller: StackFrame<'_, '_>,
    memory: &mut M,
    cells: &[Interval],
    params: &[LocalId],
    args: &[Operand],
) -> Result<(), Fault>
    ensures { left_with (M.areas memory.new) result ≡ filled (frame_of caller.entry) cells.now params.now args.now (M.areas memory.old) }
{
    let mut i: usize = 0;
    while i < params.len() && i < args.len() {
        match fill_one(caller, memory, cells, params[i], &args[i]) {
            Ok(()) => {}
            Err(fault) => return Err(fault),
        }
        i += 1;
    }
    if i < params.len() {
        return Err(Fault::TooFewArguments);
    }
    if i < args.len() {
        return Err(Fault::TooManyArguments);
    }
    Ok(())
}
