//! How a run can fault, before the words are made.

ghost use Rattle.std.specs.Prelude.{◌≡◌, IfOk};
ghost use Rattle.mir_eval.specs.Steps.{error_of};

use mir::{BinOp, MirEvalError};
use mir_mem::part_outside;
use std::alloc::Global;
use world::{NoMemory, Text};

/// How a run can fault.
#[derive(Clone, Copy)]
pub(crate) enum Fault {
    BadRead,
    BadWrite,
    Panic(BinOp),
    /// A place is out of bounds.
    OutOfBounds,
    Undefined,
    NoTerminator,
    OutOfBlocks,
    /// A call of something that is no function.
    NoFunction,
    /// The callee returned of a call that has no target.
    Returned,
    /// No level of nesting is left for a call without a target.
    NoLevel,
    TooManyArguments,
    TooFewArguments,
    /// The length of an array is no number.
    NoCount,
    /// A type of which a value is to be made has no layout.
    NoLayout,
    /// A layout doesn't say where a part begins.
    NoOffset,
    /// A part at an offset doesn't end inside the value that it is to be a part of.
    PartOutside { size: u64, offset: u64 },
    NoMemory,
}

/// The error that a fault is.
pub(crate) fn to_error(alloc: Global, fault: Fault) -> Result<MirEvalError, NoMemory>
    ensures { IfOk result (λ e. e ≡ error_of fault) }
{
    match fault {
        Fault::BadRead => {
            let text = Text::from_str(alloc, "out of bound memory read")?;
            Ok(MirEvalError::UndefinedBehavior(text))
        }
        Fault::BadWrite => {
            let text = Text::from_str(alloc, "out of bound memory write")?;
            Ok(MirEvalError::UndefinedBehavior(text))
        }
        Fault::Panic(op) => {
            let text = Text::from_str(alloc, op.panic_word())?;
            Ok(MirEvalError::Panic(text))
        }
        Fault::OutOfBounds => {
            let text = Text::from_str(alloc, "Index out of bounds")?;
            Ok(MirEvalError::Panic(text))
        }
        Fault::Undefined => {
            let text = Text::from_str(alloc, "comparison of this type")?;
            Ok(MirEvalError::NotSupported(text))
        }
        Fault::NoTerminator => {
            let text = Text::from_str(alloc, "block without terminator")?;
            Ok(MirEvalError::NotSupported(text))
        }
        Fault::OutOfBlocks => Ok(MirEvalError::ExecutionLimitExceeded),
        Fault::NoFunction => {
            let text = Text::from_str(alloc, "form not built")?;
            Ok(MirEvalError::NotSupported(text))
        }
        Fault::Returned => {
            let text = Text::from_str(alloc, "Diverging function returned")?;
            Ok(MirEvalError::UndefinedBehavior(text))
        }
        Fault::NoLevel => Ok(MirEvalError::StackOverflow),
        Fault::TooManyArguments => {
            let text = Text::from_str(alloc, "too many arguments")?;
            Ok(MirEvalError::InternalError(text))
        }
        Fault::TooFewArguments => {
            let text = Text::from_str(alloc, "too few arguments")?;
            Ok(MirEvalError::InternalError(text))
        }
        Fault::NoCount => {
            let text = Text::from_str(alloc, "non evaluatable array len in repeat Rvalue")?;
            Ok(MirEvalError::NotSupported(text))
        }
        Fault::NoLayout => {
            let text = Text::from_str(alloc, "mismatched layout")?;
            Ok(MirEvalError::InternalError(text))
        }
        Fault::NoOffset => {
            let text = Text::from_str(alloc, "field without offset")?;
            Ok(MirEvalError::InternalError(text))
        }
        Fault::PartOutside { size, offset } => match part_outside(alloc, size, offset) {
            MirEvalError::NoMemory => Err(NoMemory),
            error => Ok(error),
        },
        Fault::NoMemory => Ok(MirEvalError::NoMemory),
    }
}
