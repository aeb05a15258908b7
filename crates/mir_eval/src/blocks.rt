//! Blocks: the rows of one, and how it ends, and the blocks of one frame, one after another.

ghost use Rattle.std.specs.Prelude.{◌≡◌, ◌<◌, ◌≤◌, ◌∷◌, [], IfNone, IfSome, IsSome, None, OnOk, Ok, Option, Some, slice_get, option_and_then};
ghost use Rattle.mir.specs.declared.body.Terminator.{Terminator};
ghost use Rattle.mir.specs.Run.{GoesTo, terminated, next_from, entering};
ghost use Rattle.mir_rows.specs.Rows.{HasRows, IsWay};
ghost use Rattle.mir_eval.specs.Machine.{call_at, call_of, terminator_at};
ghost use Rattle.mir_eval.specs.declared.steps.Exit.TheVariants.{Calls};
ghost use Rattle.mir_eval.specs.Frames.{code_in, frame_of};
ghost use Rattle.mir_eval.specs.Reads.{HoldsAt};
ghost use Rattle.mir_eval.specs.Steps.{next_of, Halts, HaltsAtCall, OrNoMemory};

use crate::faults::Fault;
use crate::frames::StackFrame;
use crate::rows::{find, run_rows, view};
use crate::steps::{Exit, Halt, Stop, terminate};
use mir::BasicBlockId;
use mir_mem::{Memory, whole};
use mir_rows::{BlockRows, Spot, Way};

/// The one byte of the value at a spot, where it has one that can be read, and is within bounds.
#[inline(always)]
fn byte_at<M: Memory, const FAR: bool>(
    frame: &StackFrame<'_, '_>,
    memory: &M,
    spot: &Spot,
) -> Option<u8>
    ensures { IfSome result (λ byte. HoldsAt (frame_of frame.now) (M.areas memory.now) spot.now (byte ∷ [])) }
{
    let cell = find::<M, FAR>(frame, memory, spot)?;
    let view = view::<M, FAR, 1>(memory, cell)?;
    let bytes = whole(&view)?;
    if bytes.len() == 1 {
        Some(bytes[0])
    } else {
        None
    }
}

/// The same, out of the loop over blocks.
#[inline(never)]
fn far_byte<M: Memory>(frame: &StackFrame<'_, '_>, memory: &M, spot: &Spot) -> Option<u8>
    ensures { IfSome result (λ byte. HoldsAt (frame_of frame.now) (M.areas memory.now) spot.now (byte ∷ [])) }
{
    byte_at::<M, true>(frame, memory, spot)
}

/// How a block ends, by its way, where that says it.
#[inline(always)]
fn follow<M: Memory>(frame: &StackFrame<'_, '_>, memory: &M, way: &Way) -> Option<BasicBlockId>
    ensures { IfSome result (λ block. (terminator : Option Terminator) → IsWay (code_in (frame_of frame.now)) way.now terminator → terminated (frame_of frame.now) (M.areas memory.now) terminator ≡ GoesTo (frame_of frame.now) (M.areas memory.now) block.0) }
{
    match way {
        Way::Goto(block) => Some(*block),
        Way::Branch {
            spot,
            value,
            then,
            otherwise,
        } => {
            let byte = match byte_at::<M, false>(frame, memory, spot) {
                Some(byte) => byte,
                None => far_byte(frame, memory, spot)?,
            };
            Some(if byte == *value { *then } else { *otherwise })
        }
        Way::Other => None,
    }
}

/// What a terminator does, as the loop over blocks calls for it: what the call needs is made ready here.
#[inline(always)]
fn leave_block<M: Memory>(
    frame: &StackFrame<'_, '_>,
    memory: &M,
    block: BasicBlockId,
) -> Result<Exit, Fault>
    ensures next { next_of (frame_of frame.now) (M.areas memory.now) (terminator_at frame.now.body.now.body block.0) result ≡ terminated (frame_of frame.now) (M.areas memory.now) (terminator_at frame.now.body.now.body block.0) }
    ensures call { result ≡ Ok Calls → IsSome (call_at frame.now.body.now.body block.0) }
{
    match frame.body.body().basic_blocks.get(block.0 as u64) {
        Some(block) => terminate(frame, memory, &block.terminator),
        None => terminate(frame, memory, &None),
    }
}

/// How a block ends.
#[inline(always)]
fn end<M: Memory>(
    frame: &StackFrame<'_, '_>,
    memory: &M,
    way: &Way,
    block: BasicBlockId,
) -> Result<Exit, Fault>
    requires { IsWay (code_in (frame_of frame.now)) way.now (terminator_at frame.now.body.now.body block.0) }
    ensures next { next_of (frame_of frame.now) (M.areas memory.now) (terminator_at frame.now.body.now.body block.0) result ≡ terminated (frame_of frame.now) (M.areas memory.now) (terminator_at frame.now.body.now.body block.0) }
    ensures call { result ≡ Ok Calls → IsSome (call_at frame.now.body.now.body block.0) }
{
    match follow(frame, memory, way) {
        Some(target) => Ok(Exit::GoesTo(target)),
        None => Ok(leave_block(frame, memory, block)?),
    }
}

/// The rows of a block of the body that runs, where it has the block.
#[inline(always)]
fn rows_of<'r>(frame: &StackFrame<'r, '_>, block: BasicBlockId) -> Option<&'r BlockRows>
    ensures found { IfSome result (λ rows. HasRows (code_in (frame_of frame.now)) block.0 rows.now) }
    ensures none { IfNone result (slice_get frame.now.body.now.body.basic_blocks block.0 ≡ None) }
{
    frame.body.block(block)
}

/// Runs a block.
#[inline(always)]
#[tactic(auto, unfolding(mir::specs::Run::next_from))]
pub(crate) fn enter<M: Memory>(
    frame: &StackFrame<'_, '_>,
    memory: &mut M,
    block: BasicBlockId,
) -> Result<Exit, Fault>
    ensures next { OrNoMemory result (next_of (frame_of frame.now) (M.areas memory.new) (terminator_at frame.now.body.now.body block.0) result ≡ next_from (frame_of frame.now) (M.areas memory.old) (slice_get frame.now.body.now.body.basic_blocks block.0) 0) }
    ensures call { result ≡ Ok Calls → IsSome (call_at frame.now.body.now.body block.0) }
{
    let Some(rows) = rows_of(frame, block) else {
        return Err(Fault::NoTerminator);
    };
    match run_rows(frame, memory, block, rows.rows.as_slice()) {
        Ok(()) => end(frame, memory, &rows.way, block),
        Err(fault) => Err(fault),
    }
}

/// Runs blocks of a frame, at most `blocks` of them, until the body returns, calls or faults.
#[inline(never)]
#[tactic(auto, unfolding(mir::specs::Run::entering, mir::specs::Run::going_on), using(crate::proofs::Entering::enter_one))]
pub(crate) fn enter_all<M: Memory>(
    frame: &StackFrame<'_, '_>,
    memory: &mut M,
    start: BasicBlockId,
    blocks: u64,
) -> Stop
    ensures run { Halts (frame_of frame.now) (M.areas memory.new) (terminator_at frame.now.body.now.body result.block.0) result.left result.end (entering blocks (frame_of frame.now) (M.areas memory.old) start.0) }
    ensures call { HaltsAtCall frame.now.body.now.body result.block.0 result.end }
    ensures fewer { OnOk result.end (result.left < blocks) }
    ensures within { result.left ≤ blocks }
{
    let mut block = start;
    let mut left = blocks;
    while left > 0 {
        left -= 1;
        match enter(frame, memory, block) {
            Ok(Exit::GoesTo(target)) => block = target,
            Ok(Exit::Returns) => {
                return Stop {
                    end: Ok(Halt::Returns),
                    block,
                    left,
                };
            }
            Ok(Exit::Calls) => {
                return Stop {
                    end: Ok(Halt::Calls),
                    block,
                    left,
                };
            }
            Err(fault) => {
                return Stop {
                    end: Err(fault),
                    block,
                    left,
                };
            }
        }
    }
    Stop {
        end: Err(Fault::OutOfBlocks),
        block,
        left: 0,
    }
}
