//! Statements by their rows: an operator on two operands, a cast, a copy, and a constant are done without a look at the body.

ghost use Rattle.std.specs.Prelude.{◌≡◌, IfNone, IfSome, Ok, Some};
ghost use Rattle.std.specs.Bool.{OnFalse, OnTrue};
ghost use Rattle.std.specs.List.{concat};
ghost use Rattle.mir.specs.declared.operand.OperandKind.{OperandKind};
ghost use Rattle.mir.specs.declared.statement.Statement.{Statement};
ghost use Rattle.mir.specs.declared.statement.StatementKind.{StatementKind};
ghost use Rattle.mir.specs.Memory.{cell_bytes};
ghost use Rattle.mir.specs.Run.{after_statement, after_statements, copied, read};
ghost use Rattle.mir_ops.specs.Made.{made_bytes};
ghost use Rattle.mir_rows.specs.declared.row.Action.TheVariants.{Cast, Combine, Copy, Put};
ghost use Rattle.mir_rows.specs.Rows.{AreOperands, AreRows, IsRow, IsSource, Says};
ghost use Rattle.mir_eval.specs.Frames.{code_in, frame_of};
ghost use Rattle.mir_eval.specs.Machine.{statements_at};
ghost use Rattle.mir_eval.specs.Reads.{HasBytes, LiesIn, Makes};
ghost use Rattle.mir_eval.specs.Steps.{left_with, OrNoMemory};

use crate::cells::{Held, copy, put, read};
use crate::faults::Fault;
use crate::frames::StackFrame;
use crate::steps::execute;
use mir::{Address, BasicBlockId, BinOp, Interval};
use mir_mem::{Memory, View, whole};
use mir_ops::{
    Made, byte_of, bytes1, bytes2, bytes4, bytes8, bytes16, converted_of, made_of, word_made_of,
};
use mir_rows::{Action, Row, Short, Source, Spot, cell_of, cell_of_element, part_of_local};
use numbers::Kind;

/// Where a spot lies now, where it is within bounds, and lies behind no indices unless `FAR`.
#[inline(always)]
pub(crate) fn find<M: Memory, const FAR: bool>(
    frame: &StackFrame<'_, '_>,
    memory: &M,
    spot: &Spot,
) -> Option<Interval>
    ensures { IfSome result (LiesIn (frame_of frame.now) (M.areas memory.now) spot.now) }
{
    match spot {
        Spot::Whole(local) => cell_of(frame.cells, *local),
        Spot::Part {
            local,
            offset,
            size,
        } => part_of_local(frame.cells, *local, *offset, *size),
        Spot::Indexed(element) => {
            if FAR {
                let numbers = Held {
                    memory,
                    cells: frame.cells,
                };
                cell_of_element(&numbers, frame.cells, element.as_ref())
            } else {
                None
            }
        }
    }
}

/// The bytes of a cell. Without `FAR` only those of a cell on the stack that has `N` bytes, so that the compiled code has no other tests of where they lie, and
/// how many they are.
#[inline(always)]
pub(crate) fn view<M: Memory, const FAR: bool, const N: usize>(
    memory: &M,
    cell: Interval,
) -> Option<View<'_>>
    ensures { IfSome result (λ view. cell_bytes (M.areas memory.now) cell ≡ Some (concat view)) }
{
    if FAR {
        return read(memory, cell);
    }
    if cell.size == N as u64 && matches!(cell.addr, Address::Stack(_)) {
        read(memory, cell)
    } else {
        None
    }
}

/// The bytes of a source now, where it has some, and is within bounds; without `FAR`, where it has `N`.
#[inline(always)]
fn source<'r, M: Memory, const FAR: bool, const N: usize>(
    frame: &StackFrame<'_, '_>,
    memory: &'r M,
    source: &'r Source,
) -> Option<View<'r>>
    ensures { IfSome result (λ view. (operand : OperandKind) → IsSource (code_in (frame_of frame.now)) source.now operand → HasBytes (frame_of frame.now) (M.areas memory.now) operand (concat view)) }
{
    match source {
        Source::Whole(local) => view::<M, FAR, N>(memory, cell_of(frame.cells, *local)?),
        Source::Constant(short) => {
            if FAR || short.count == N {
                Some(View::of(short.bytes()))
            } else {
                None
            }
        }
        Source::At(spot) => view::<M, FAR, N>(memory, find::<M, FAR>(frame, memory, spot)?),
    }
}

/// What an operator makes of two operands, without the table. There is none where `made_of` has none, or where the
/// bytes of one can't be read or don't lie in one piece; without `FAR`, unless both have `N` bytes.
#[inline(always)]
fn combine<M: Memory, const FAR: bool, const N: usize>(
    frame: &StackFrame<'_, '_>,
    memory: &M,
    op: BinOp,
    kind: Kind,
    other: Kind,
    left: &Source,
    right: &Source,
) -> Option<Made>
    ensures { IfSome result (λ made. (one two : OperandKind) → AreOperands (code_in (frame_of frame.now)) kind other left.now right.now one two → Makes (frame_of frame.now) (M.areas memory.now) op one two (made_bytes made)) }
{
    let left_view = source::<M, FAR, N>(frame, memory, left)?;
    let right_view = source::<M, FAR, N>(frame, memory, right)?;
    let left_bytes = whole(&left_view)?;
    let right_bytes = whole(&right_view)?;
    if FAR {
        made_of(op, kind, other, left_bytes, right_bytes)
    } else {
        word_made_of(op, kind, other, left_bytes, right_bytes)
    }
}

/// Writes a number or a truth value to the start of a cell.
#[inline(always)]
fn assign_made<M: Memory, const FAR: bool>(memory: &mut M, to: Interval, made: Made) -> Option<()>
    ensures done { IfSome result (λ done. Ok (M.areas memory.new) ≡ copied (M.areas memory.old) (Some to) (Ok (made_bytes made))) }
    ensures kept { IfNone result (M.areas memory.new ≡ M.areas memory.old) }
{
    match made {
        Made::Word1(word) => put::<M, FAR>(memory, to, &bytes1(word)),
        Made::Word2(word) => put::<M, FAR>(memory, to, &bytes2(word)),
        Made::Word4(word) => put::<M, FAR>(memory, to, &bytes4(word)),
        Made::Word8(word) => put::<M, FAR>(memory, to, &bytes8(word)),
        Made::WideWord(word) => put::<M, FAR>(memory, to, &bytes16(word)),
        Made::Truth(truth) => put::<M, FAR>(memory, to, &byte_of(truth)),
    }
}

/// Assigns to a spot what an operator makes of two operands, where that can be done without the statement. Where it can't, nothing has changed. `guess` is that of
/// the row, and stands here for what is ensured alone.
#[inline(always)]
fn put_combined<M: Memory, const FAR: bool, const N: usize>(
    frame: &StackFrame<'_, '_>,
    memory: &mut M,
    op: BinOp,
    kind: Kind,
    other: Kind,
    guess: u8,
    to: &Spot,
    left: &Source,
    right: &Source,
) -> Option<()>
    ensures done { IfSome result (λ done. (statement : StatementKind) → Says (code_in (frame_of frame.now)) (Combine op kind other guess to.now left.now right.now) statement → Ok (M.areas memory.new) ≡ after_statement (frame_of frame.now) (M.areas memory.old) statement) }
    ensures kept { IfNone result (M.areas memory.new ≡ M.areas memory.old) }
{
    let to = find::<M, FAR>(frame, memory, to)?;
    let made = combine::<M, FAR, N>(frame, memory, op, kind, other, left, right)?;
    assign_made::<M, FAR>(memory, to, made)
}

/// Assigns to a spot what a cast makes of an operand, where that can be done without the statement. Where it can't, nothing has changed. The loop over rows has no
/// code for it.
#[inline(always)]
fn put_cast<M: Memory, const FAR: bool>(
    frame: &StackFrame<'_, '_>,
    memory: &mut M,
    kind: Kind,
    size: usize,
    to: &Spot,
    from: &Source,
) -> Option<()>
    ensures done { IfSome result (λ done. (statement : StatementKind) → Says (code_in (frame_of frame.now)) (Cast kind size to.now from.now) statement → Ok (M.areas memory.new) ≡ after_statement (frame_of frame.now) (M.areas memory.old) statement) }
    ensures kept { IfNone result (M.areas memory.new ≡ M.areas memory.old) }
{
    if !FAR {
        return None;
    }
    let to = find::<M, FAR>(frame, memory, to)?;
    let made = {
        let view = source::<M, FAR, 0>(frame, memory, from)?;
        let bytes = whole(&view)?;
        converted_of(kind, size, bytes)?
    };
    assign_made::<M, FAR>(memory, to, made)
}

/// Copies the bytes of a cell to the start of another one, where they are so many and lie in one piece. Where they aren't, nothing has changed.
#[inline(always)]
fn copy_few<M: Memory, const FAR: bool, const N: usize>(
    memory: &mut M,
    from: Interval,
    to: Interval,
) -> Option<()>
    ensures done { IfSome result (λ done. Ok (M.areas memory.new) ≡ copied (M.areas memory.old) (Some to) (read (cell_bytes (M.areas memory.old) from))) }
    ensures kept { IfNone result (M.areas memory.new ≡ M.areas memory.old) }
{
    let mut room: [u8; N] = [0; N];
    {
        let view = view::<M, FAR, N>(memory, from)?;
        let bytes = whole(&view)?;
        if bytes.len() != N {
            return None;
        }
        room.copy_from_slice(bytes);
    }
    put::<M, FAR>(memory, to, &room)
}

/// Copies the bytes of a cell to the start of another one. Frequent numbers of bytes have code of their own; others are copied with `FAR` alone.
#[inline(always)]
fn copy_value<M: Memory, const FAR: bool>(
    memory: &mut M,
    from: Interval,
    to: Interval,
) -> Option<()>
    ensures done { IfSome result (λ done. Ok (M.areas memory.new) ≡ copied (M.areas memory.old) (Some to) (read (cell_bytes (M.areas memory.old) from))) }
    ensures kept { IfNone result (M.areas memory.new ≡ M.areas memory.old) }
{
    match from.size {
        8 => copy_few::<M, FAR, 8>(memory, from, to),
        4 => copy_few::<M, FAR, 4>(memory, from, to),
        1 => copy_few::<M, FAR, 1>(memory, from, to),
        _ => {
            if FAR {
                match copy(memory, from, to) {
                    Ok(()) => Some(()),
                    Err(_) => None,
                }
            } else {
                None
            }
        }
    }
}

/// Copies the value at a spot to another one, where that can be done without the statement. Where it can't, nothing has changed.
#[inline(always)]
fn put_copy<M: Memory, const FAR: bool>(
    frame: &StackFrame<'_, '_>,
    memory: &mut M,
    to: &Spot,
    from: &Spot,
) -> Option<()>
    ensures done { IfSome result (λ done. (statement : StatementKind) → Says (code_in (frame_of frame.now)) (Copy to.now from.now) statement → Ok (M.areas memory.new) ≡ after_statement (frame_of frame.now) (M.areas memory.old) statement) }
    ensures kept { IfNone result (M.areas memory.new ≡ M.areas memory.old) }
{
    let to = find::<M, FAR>(frame, memory, to)?;
    let from = find::<M, FAR>(frame, memory, from)?;
    copy_value::<M, FAR>(memory, from, to)
}

/// Writes bytes to the start of a cell. Frequent numbers of them have code of their own; others are written with `FAR` alone.
#[inline(always)]
#[tactic(auto, using(std::proofs::lemmas::List::take_all))]
fn write_short<M: Memory, const FAR: bool>(memory: &mut M, to: Interval, bytes: &[u8]) -> Option<()>
    ensures done { IfSome result (λ done. Ok (M.areas memory.new) ≡ copied (M.areas memory.old) (Some to) (Ok bytes.now)) }
    ensures kept { IfNone result (M.areas memory.new ≡ M.areas memory.old) }
{
    match bytes.len() {
        1 => put::<M, FAR>(memory, to, &bytes[..1]),
        4 => put::<M, FAR>(memory, to, &bytes[..4]),
        8 => put::<M, FAR>(memory, to, &bytes[..8]),
        _ => {
            if FAR {
                put::<M, FAR>(memory, to, bytes)
            } else {
                None
            }
        }
    }
}

/// Assigns a constant to a spot, where that can be done without the statement. Where it can't, nothing has changed.
#[inline(always)]
fn put_constant<M: Memory, const FAR: bool>(
    frame: &StackFrame<'_, '_>,
    memory: &mut M,
    to: &Spot,
    value: &Short,
) -> Option<()>
    ensures done { IfSome result (λ done. (statement : StatementKind) → Says (code_in (frame_of frame.now)) (Put to.now value.now) statement → Ok (M.areas memory.new) ≡ after_statement (frame_of frame.now) (M.areas memory.old) statement) }
    ensures kept { IfNone result (M.areas memory.new ≡ M.areas memory.old) }
{
    let to = find::<M, FAR>(frame, memory, to)?;
    write_short::<M, FAR>(memory, to, value.bytes())
}

/// Does an action, where it can be done without the statement that it is read off. Where it can't, nothing has changed.
#[inline(always)]
fn act<M: Memory, const FAR: bool>(
    frame: &StackFrame<'_, '_>,
    memory: &mut M,
    action: &Action,
) -> Option<()>
    ensures done { IfSome result (λ done. (statement : StatementKind) → Says (code_in (frame_of frame.now)) action.now statement → Ok (M.areas memory.new) ≡ after_statement (frame_of frame.now) (M.areas memory.old) statement) }
    ensures kept { IfNone result (M.areas memory.new ≡ M.areas memory.old) }
{
    match action {
        Action::Combine {
            op,
            kind,
            other,
            guess,
            to,
            left,
            right,
        } => {
            if FAR {
                return put_combined::<M, FAR, 0>(
                    frame, memory, *op, *kind, *other, *guess, to, left, right,
                );
            }
            match *guess {
                4 => put_combined::<M, FAR, 4>(
                    frame, memory, *op, *kind, *other, *guess, to, left, right,
                ),
                8 => put_combined::<M, FAR, 8>(
                    frame, memory, *op, *kind, *other, *guess, to, left, right,
                ),
                _ => None,
            }
        }
        Action::Cast {
            kind,
            size,
            to,
            from,
        } => put_cast::<M, FAR>(frame, memory, *kind, *size, to, from),
        Action::Copy { to, from } => put_copy::<M, FAR>(frame, memory, to, from),
        Action::Put { to, value } => put_constant::<M, FAR>(frame, memory, to, value),
        Action::Other => None,
    }
}

/// Does an action, wherever its values lie; returns whether it could. It stays out of the loop over rows, which has code of its own for frequent values.
#[inline(never)]
fn act_far<M: Memory>(frame: &StackFrame<'_, '_>, memory: &mut M, action: &Action) -> bool
    ensures done { OnTrue result ((statement : StatementKind) → Says (code_in (frame_of frame.now)) action.now statement → Ok (M.areas memory.new) ≡ after_statement (frame_of frame.now) (M.areas memory.old) statement) }
    ensures kept { OnFalse result (M.areas memory.new ≡ M.areas memory.old) }
{
    act::<M, true>(frame, memory, action).is_some()
}

/// Runs the statement of a row, as the body has it. It stays out of the loop over rows.
#[inline(never)]
fn run_statement<M: Memory>(
    frame: &StackFrame<'_, '_>,
    memory: &mut M,
    block: BasicBlockId,
    row: &Row,
) -> Result<(), Fault>
    requires { (statement : Statement) × IsRow (code_in (frame_of frame.now)) (statements_at frame.now.body.now.body block.0) statement row.now }
    ensures { (statement : Statement) → IsRow (code_in (frame_of frame.now)) (statements_at frame.now.body.now.body block.0) statement row.now → OrNoMemory result (left_with (M.areas memory.new) result ≡ after_statement (frame_of frame.now) (M.areas memory.old) statement.kind) }
{
    let Some(block) = frame.body.body().basic_blocks.get(block.0 as u64) else {
        unreachable!()
    };
    match block.statements.get(row.place) {
        Some(statement) => execute(*frame, memory, &statement.kind),
        None => unreachable!(),
    }
}

/// The same, as the loop over rows calls it: what the call needs is made ready here.
#[inline(always)]
fn leave_row<M: Memory>(
    frame: &StackFrame<'_, '_>,
    memory: &mut M,
    block: BasicBlockId,
    row: &Row,
) -> Result<(), Fault>
    requires { (statement : Statement) × IsRow (code_in (frame_of frame.now)) (statements_at frame.now.body.now.body block.0) statement row.now }
    ensures { (statement : Statement) → IsRow (code_in (frame_of frame.now)) (statements_at frame.now.body.now.body block.0) statement row.now → OrNoMemory result (left_with (M.areas memory.new) result ≡ after_statement (frame_of frame.now) (M.areas memory.old) statement.kind) }
{
    run_statement(frame, memory, block, row)
}

/// Runs the statement of a row.
#[inline(always)]
fn run_row<M: Memory>(
    frame: &StackFrame<'_, '_>,
    memory: &mut M,
    block: BasicBlockId,
    row: &Row,
) -> Result<(), Fault>
    requires { (statement : Statement) × IsRow (code_in (frame_of frame.now)) (statements_at frame.now.body.now.body block.0) statement row.now }
    ensures { (statement : Statement) → IsRow (code_in (frame_of frame.now)) (statements_at frame.now.body.now.body block.0) statement row.now → OrNoMemory result (left_with (M.areas memory.new) result ≡ after_statement (frame_of frame.now) (M.areas memory.old) statement.kind) }
{
    if act::<M, false>(frame, memory, &row.action).is_some() {
        return Ok(());
    }
    if act_far(frame, memory, &row.action) {
        return Ok(());
    }
    leave_row(frame, memory, block, row)
}

/// Runs the statements of a block in order, up to the first that faults.
#[inline(always)]
pub(crate) fn run_rows<M: Memory>(
    frame: &StackFrame<'_, '_>,
    memory: &mut M,
    block: BasicBlockId,
    rows: &[Row],
) -> Result<(), Fault>
    requires { AreRows (code_in (frame_of frame.now)) (statements_at frame.now.body.now.body block.0) (statements_at frame.now.body.now.body block.0) rows.now }
    ensures { OrNoMemory result (left_with (M.areas memory.new) result ≡ after_statements (frame_of frame.now) (statements_at frame.now.body.now.body block.0) (M.areas memory.old)) }
{
    for row in rows {
        match run_row(frame, memory, block, row) {
            Ok(()) => {}
            Err(fault) => return Err(fault),
        }
    }
    Ok(())
}
