//! The steps of a run, as the body itself says them: operands, assignments, statements and terminators.

ghost use Rattle.std.specs.Prelude.{◌≡◌, ◌≢◌, ◌<◌, ◌≤◌, IfOk, IfSome, IsSome, Ok, Some, option_and_then, option_map};
ghost use Rattle.std.specs.List.{concat};
ghost use Rattle.mir.specs.Memory.{number_held};
ghost use Rattle.mir.specs.Run.{assigns_out, cell_now, led, operand_out, copied, read, answered, operated, computed_of, cast_to, operated_on, rvalue_bytes, operand_bytes, operand_type, after_statement, switched, terminated};
ghost use Rattle.mir_eval.specs.Machine.{call_of};
ghost use Rattle.mir_eval.specs.declared.steps.Exit.TheVariants.{Calls};
ghost use Rattle.numbers.specs.Computed.{answer_of, count_of};
ghost use Rattle.mir_rows.specs.Places.{HasEnd};
ghost use Rattle.mir_eval.specs.Frames.{frame_of};
ghost use Rattle.mir_eval.specs.Steps.{operated_bytes, left_with, next_of, OrNoMemory};

use crate::aggregates::{aggregate, assign_bytes, repeated};
use crate::cells::{Held, copy, read, write};
use crate::faults::Fault;
use crate::frames::StackFrame;
use mir::{
    BasicBlockId, BinOp, CastKind, Interval, OperandKind, Place, Rvalue, StatementKind,
    SwitchTargets, Terminator, TerminatorKind, UnOp, fixed_size,
};
use mir_mem::{Memory, View, gather, whole};
use mir_rows::{assigns_out, constant_bytes, operand_kind, operand_out, place_cell};
use numbers::{Computed, compute, convert, invert, negate, number_of};
use types::Ty;

/// Where a block leads that doesn't fault: out of the body, to another block of it, or to a call, which its terminator is.
#[derive(Clone, Copy)]
pub(crate) enum Exit {
    Returns,
    GoesTo(BasicBlockId),
    Calls,
}

/// Why the blocks of a frame go no further: the body returns, or the last block calls.
#[derive(Clone, Copy)]
pub(crate) enum Halt {
    Returns,
    Calls,
}

/// Where the blocks of a frame led.
#[derive(Clone, Copy)]
pub(crate) struct Stop {
    pub end: Result<Halt, Fault>,
    /// The last block.
    pub block: BasicBlockId,
    /// How many blocks may still be entered.
    pub left: u64,
}

/// Where a place's value lies now.
#[inline(always)]
pub(crate) fn cell_now<M: Memory>(
    frame: StackFrame<'_, '_>,
    memory: &M,
    place: Place,
) -> Option<Interval>
    ensures cell { result ≡ cell_now (frame_of frame.entry) (M.areas memory.now) place }
    ensures ends { IfSome result HasEnd }
{
    let numbers = Held {
        memory,
        cells: frame.cells,
    };
    place_cell(
        frame.program.db,
        frame.body.body(),
        &numbers,
        frame.cells,
        place,
    )
}

/// The bytes that an operand has now.
#[inline(always)]
#[tactic(auto, unfolding(mir::specs::Run::operand_bytes), using(mir_mem::proofs::Joined::concat_pieces_of))]
pub(crate) fn operand<'r, M: Memory>(
    frame: StackFrame<'_, '_>,
    memory: &'r M,
    kind: &'r OperandKind,
) -> Option<View<'r>>
    ensures { option_map concat result ≡ operand_bytes (frame_of frame.entry) (M.areas memory.now) kind.now }
{
    match kind {
        OperandKind::Copy(place) => match cell_now(frame, memory, *place) {
            Some(cell) => read(memory, cell),
            None => None,
        },
        OperandKind::Constant { konst, .. } => match constant_bytes(konst) {
            Some(bytes) => Some(View::of(bytes)),
            None => None,
        },
    }
}

/// Copies the bytes of an operand to a cell.
#[tactic(auto, unfolding(mir::specs::Run::operand_bytes, mir::specs::Run::copied))]
pub(crate) fn assign_operand<M: Memory>(
    frame: StackFrame<'_, '_>,
    memory: &mut M,
    to: Interval,
    kind: &OperandKind,
) -> Result<(), Fault>
    ensures { left_with (M.areas memory.new) result ≡ copied (M.areas memory.old) (Some to) (read (operand_bytes (frame_of frame.entry) (M.areas memory.old) kind.now)) }
{
    match kind {
        OperandKind::Copy(place) => match cell_now(frame, memory, *place) {
            Some(from) => copy(memory, from, to),
            None => Err(Fault::BadRead),
        },
        OperandKind::Constant { konst, .. } => match constant_bytes(konst) {
            Some(bytes) => write(memory, to, bytes),
            None => Err(Fault::BadRead),
        },
    }
}

/// The bytes that a computation gives, or its fault.
#[tactic(auto, unfolding(mir::specs::Run::answered))]
fn answered(computed: Computed) -> Result<([u8; 16], u8), Fault>
    requires { count_of computed ≤ 16 }
    ensures bytes { operated_bytes result ≡ answered (answer_of computed) }
    ensures count { IfOk result (λ r. r.1 ≤ 16) }
{
    match computed {
        Computed::Bytes(bytes, count) => Ok((bytes, count)),
        Computed::Panics(op) => Err(Fault::Panic(op)),
        Computed::Undefined => Err(Fault::Undefined),
    }
}

/// The bytes that an operator makes of two operands.
#[tactic(auto, unfolding(mir::specs::Run::operated))]
fn operate<M: Memory>(
    frame: StackFrame<'_, '_>,
    memory: &M,
    op: BinOp,
    left: &OperandKind,
    right: &OperandKind,
) -> Result<([u8; 16], u8), Fault>
    ensures bytes { operated_bytes result ≡ operated op (operand_type frame.entry.program.now.db.now frame.entry.body.now.body left.now) (operand_type frame.entry.program.now.db.now frame.entry.body.now.body right.now) (operand_bytes (frame_of frame.entry) (M.areas memory.now) left.now) (operand_bytes (frame_of frame.entry) (M.areas memory.now) right.now) }
    ensures count { IfOk result (λ r. r.1 ≤ 16) }
{
    let Some(left_view) = operand(frame, memory, left) else {
        return Err(Fault::BadRead);
    };
    let Some(right_view) = operand(frame, memory, right) else {
        return Err(Fault::BadRead);
    };
    let left_kind = operand_kind(frame.program.db, frame.body.body(), left);
    let right_kind = operand_kind(frame.program.db, frame.body.body(), right);
    // No operator has an answer for operands of more than 16 bytes.
    let Some(left_bytes) = gather(&left_view) else {
        return Err(Fault::Undefined);
    };
    let Some(right_bytes) = gather(&right_view) else {
        return Err(Fault::Undefined);
    };
    answered(compute(
        op,
        left_kind,
        right_kind,
        left_bytes.bytes(),
        right_bytes.bytes(),
    ))
}

/// The bytes that an operator makes of one operand.
#[tactic(auto, unfolding(mir::specs::Run::operated_on, mir::specs::Run::computed_of))]
fn operate_on<M: Memory>(
    frame: StackFrame<'_, '_>,
    memory: &M,
    op: UnOp,
    kind: &OperandKind,
) -> Result<([u8; 16], u8), Fault>
    ensures bytes { operated_bytes result ≡ operated_on op (operand_type frame.entry.program.now.db.now frame.entry.body.now.body kind.now) (operand_bytes (frame_of frame.entry) (M.areas memory.now) kind.now) }
    ensures count { IfOk result (λ r. r.1 ≤ 16) }
{
    let Some(view) = operand(frame, memory, kind) else {
        return Err(Fault::BadRead);
    };
    let own = operand_kind(frame.program.db, frame.body.body(), kind);
    match gather(&view) {
        Some(bytes) => match op {
            UnOp::Not => answered(invert(own, bytes.bytes())),
            UnOp::Neg => answered(negate(own, bytes.bytes())),
        },
        None => Err(Fault::Undefined),
    }
}

/// The bytes of a number that is cast to a type.
#[tactic(auto, unfolding(mir::specs::Run::cast_to))]
fn cast<M: Memory>(
    frame: StackFrame<'_, '_>,
    memory: &M,
    kind: &OperandKind,
    ty: &Ty,
) -> Result<([u8; 16], u8), Fault>
    ensures bytes { operated_bytes result ≡ cast_to ty.now (operand_type frame.entry.program.now.db.now frame.entry.body.now.body kind.now) (operand_bytes (frame_of frame.entry) (M.areas memory.now) kind.now) }
    ensures count { IfOk result (λ r. r.1 ≤ 16) }
{
    let Some(view) = operand(frame, memory, kind) else {
        return Err(Fault::BadRead);
    };
    let Some(size) = fixed_size(ty) else {
        return Err(Fault::Undefined);
    };
    let own = operand_kind(frame.program.db, frame.body.body(), kind);
    match gather(&view) {
        Some(bytes) => answered(convert(own, size, bytes.bytes())),
        None => Err(Fault::Undefined),
    }
}

/// Copies what an operator made to a cell.
#[tactic(auto, unfolding(mir::specs::Run::copied))]
fn assign_made<M: Memory>(
    memory: &mut M,
    to: Interval,
    made: Result<([u8; 16], u8), Fault>,
) -> Result<(), Fault>
    requires { IfOk made (λ r. r.1 ≤ 16) }
    ensures { left_with (M.areas memory.new) result ≡ copied (M.areas memory.old) (Some to) (operated_bytes made) }
{
    match made {
        Ok(made) => write(memory, to, &made.0[..made.1 as usize]),
        Err(fault) => Err(fault),
    }
}

/// Copies what is computed to a cell.
#[tactic(auto, unfolding(mir::specs::Run::rvalue_bytes))]
fn assign<M: Memory>(
    frame: StackFrame<'_, '_>,
    memory: &mut M,
    to: Interval,
    rvalue: &Rvalue,
) -> Result<(), Fault>
    ensures { OrNoMemory result (left_with (M.areas memory.new) result ≡ copied (M.areas memory.old) (Some to) (rvalue_bytes (frame_of frame.entry) (M.areas memory.old) rvalue.now)) }
{
    match rvalue {
        Rvalue::Use(operand) => assign_operand(frame, memory, to, &operand.kind),
        Rvalue::Repeat(operand, len) => {
            let made = repeated(frame, memory, &operand.kind, len);
            assign_bytes(memory, to, made)
        }
        Rvalue::Cast(CastKind::IntToInt, operand, ty) => {
            let made = cast(frame, memory, &operand.kind, ty);
            assign_made(memory, to, made)
        }
        Rvalue::CheckedBinaryOp(op, left, right) => {
            let made = operate(frame, memory, *op, &left.kind, &right.kind);
            assign_made(memory, to, made)
        }
        Rvalue::UnaryOp(op, operand) => {
            let made = operate_on(frame, memory, *op, &operand.kind);
            assign_made(memory, to, made)
        }
        Rvalue::Aggregate(kind, operands) => {
            let made = aggregate(frame, memory, kind, operands.as_slice());
            assign_bytes(memory, to, made)
        }
    }
}

/// Runs a statement. It stays out of the loop over rows, which has code of its own for the frequent statements.
#[inline(never)]
#[tactic(auto, unfolding(mir::specs::Run::after_statement, mir::specs::Run::copied))]
pub(crate) fn execute<M: Memory>(
    frame: StackFrame<'_, '_>,
    memory: &mut M,
    statement: &StatementKind,
) -> Result<(), Fault>
    ensures { OrNoMemory result (left_with (M.areas memory.new) result ≡ after_statement (frame_of frame.entry) (M.areas memory.old) statement.now) }
{
    match statement {
        StatementKind::Assign(place, rvalue) => {
            let out = {
                let numbers = Held {
                    memory: &*memory,
                    cells: frame.cells,
                };
                assigns_out(
                    frame.program.db,
                    frame.body.body(),
                    &numbers,
                    *place,
                    rvalue,
                )
            };
            if out {
                return Err(Fault::OutOfBounds);
            }
            match cell_now(frame, memory, *place) {
                Some(to) => assign(frame, memory, to, rvalue),
                None => Err(Fault::BadWrite),
            }
        }
        StatementKind::FakeRead(_) => Ok(()),
        StatementKind::StorageLive(_) => Ok(()),
        StatementKind::StorageDead(_) => Ok(()),
    }
}

/// Where a switch leads.
#[tactic(auto, unfolding(mir::specs::Run::switched))]
fn branch<M: Memory>(
    frame: StackFrame<'_, '_>,
    memory: &M,
    discr: &OperandKind,
    targets: &SwitchTargets,
) -> Result<Exit, Fault>
    ensures leads { (terminator : _) → next_of (frame_of frame.entry) (M.areas memory.now) terminator result ≡ led (frame_of frame.entry) (operand_out frame.entry.program.now.db.now frame.entry.body.now.body (number_held (M.areas memory.now) frame.entry.cells.now) discr.now) (switched (frame_of frame.entry) (M.areas memory.now) targets.now (operand_bytes (frame_of frame.entry) (M.areas memory.now) discr.now)) }
    ensures block { result ≢ Ok Calls }
{
    let numbers = Held {
        memory,
        cells: frame.cells,
    };
    if operand_out(frame.program.db, frame.body.body(), &numbers, discr) {
        return Err(Fault::OutOfBounds);
    }
    let Some(view) = operand(frame, memory, discr) else {
        return Err(Fault::BadRead);
    };
    if view.len() > 16 {
        return Err(Fault::Undefined);
    }
    let number = match whole(&view) {
        Some(bytes) => number_of(bytes),
        None => match gather(&view) {
            Some(bytes) => number_of(bytes.bytes()),
            None => return Err(Fault::Undefined),
        },
    };
    Ok(Exit::GoesTo(targets.target_for_value(number)))
}

/// What a terminator does. It stays out of the loop over blocks too.
#[inline(never)]
#[tactic(auto, unfolding(mir::specs::Run::terminated))]
pub(crate) fn terminate<M: Memory>(
    frame: &StackFrame<'_, '_>,
    memory: &M,
    terminator: &Option<Terminator>,
) -> Result<Exit, Fault>
    ensures next { next_of (frame_of frame.now) (M.areas memory.now) terminator.now result ≡ terminated (frame_of frame.now) (M.areas memory.now) terminator.now }
    ensures call { result ≡ Ok Calls → IsSome (option_and_then call_of terminator.now) }
{
    match terminator {
        Some(terminator) => match &terminator.kind {
            TerminatorKind::Goto { target } => Ok(Exit::GoesTo(*target)),
            TerminatorKind::SwitchInt { discr, targets } => {
                branch(*frame, memory, &discr.kind, targets)
            }
            TerminatorKind::Return => Ok(Exit::Returns),
            TerminatorKind::Drop { target, .. } => Ok(Exit::GoesTo(*target)),
            TerminatorKind::Call { .. } => Ok(Exit::Calls),
        },
        None => Err(Fault::NoTerminator),
    }
}
