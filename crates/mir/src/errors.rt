//! Why a body could not be lowered, and how a run can end without a value.

ghost use Rattle.std.specs.Prelude.{◌≡◌};
ghost use Rattle.mir.specs.Errors.{layout_error_of};

use crate::MirSpan;
use either::Either;
use mentions::holds_param;
use world::{Box, Crate, DefWithBodyId, FunctionId, InternedClosureId, List, NoMemory, Text, Ty};

/// Why a type has no layout.
#[derive(Clone, Copy, PartialEq, Eq, Debug)]
pub enum LayoutError {
    /// It holds a generic parameter, and so has no entry in the world's layouts.
    HasPlaceholder,
    /// It holds none, and the world's layouts have no entry for it.
    Unknown,
}

/// Why a type that has no entry in the world's layouts has no layout.
#[tactic(auto, unfolding(crate::specs::Errors::layout_error_of))]
pub fn layout_error_of(ty: &Ty) -> LayoutError
    ensures { result ≡ layout_error_of ty.now }
{
    if holds_param(ty) {
        LayoutError::HasPlaceholder
    } else {
        LayoutError::Unknown
    }
}

/// Why a body could not be lowered.
#[derive(PartialEq, Eq, Debug, Drop)]
pub enum MirLowerError {
    LayoutError(LayoutError),
    IncompleteExpr,
    UnresolvedName(Text),
    HasErrors,
    TypeError(Text),
    NotSupported(Text),
    ContinueWithoutLoop,
    BreakWithoutLoop,
    UnresolvedLabel,
    InaccessibleLocal,
    NoMemory,
}

impl From<NoMemory> for MirLowerError {
    ghost use Rattle.std.specs.Prelude.{◌≡◌};
    ghost use Rattle.mir.specs.declared.errors.MirLowerError.TheVariants as lower;

    ghost from_gives = { λ _ error. error ≡ lower.NoMemory };

    fn from(_error: NoMemory) -> MirLowerError {
        MirLowerError::NoMemory
    }
}

impl From<LayoutError> for MirLowerError {
    ghost use Rattle.std.specs.Prelude.{◌≡◌};
    ghost use Rattle.mir.specs.declared.errors.MirLowerError.TheVariants as lower;

    ghost from_gives = { λ layout error. error ≡ lower.LayoutError layout };

    fn from(error: LayoutError) -> MirLowerError {
        MirLowerError::LayoutError(error)
    }
}

/// A call that a fault passed through: what was called, where, and by which body.
#[derive(Clone, Copy, PartialEq, Eq, Debug)]
pub struct TrailEntry {
    pub callee: Either<FunctionId, InternedClosureId>,
    pub span: MirSpan,
    pub caller: DefWithBodyId,
}

/// How a run can end without a value.
#[derive(PartialEq, Eq, Debug, Drop)]
pub enum MirEvalError {
    LayoutError(LayoutError, Ty),
    TargetDataLayoutNotAvailable(Crate),
    UndefinedBehavior(Text),
    Panic(Text),
    /// The body of a function that was called could not be lowered.
    MirLowerError(FunctionId, MirLowerError),
    TypeIsUnsized(Ty, Text),
    NotSupported(Text),
    /// A fault that ended a frame, and the calls that were open then, the innermost first. Before them, if the fault is that a
    /// callee's body could not be got, stands that call.
    InFunction(Box<MirEvalError>, List<TrailEntry>),
    ExecutionLimitExceeded,
    StackOverflow,
    MemoryLimitExceeded,
    /// A call has more or fewer arguments than its callee has parameters, or a run begins with a body that has parameters.
    InternalError(Text),
    NoMemory,
}

impl From<NoMemory> for MirEvalError {
    ghost use Rattle.std.specs.Prelude.{◌≡◌};
    ghost use Rattle.mir.specs.declared.errors.MirEvalError as eval;

    ghost from_gives = { λ _ error. error ≡ eval.NoMemory };

    fn from(_error: NoMemory) -> MirEvalError {
        MirEvalError::NoMemory
    }
}

/// Why a constant has no value.
#[derive(PartialEq, Eq, Debug, Drop)]
pub enum ConstEvalError {
    MirLowerError(MirLowerError),
    MirEvalError(MirEvalError),
    NoMemory,
}

impl From<NoMemory> for ConstEvalError {
    ghost use Rattle.std.specs.Prelude.{◌≡◌};
    ghost use Rattle.mir.specs.declared.errors.ConstEvalError.TheVariants as constant;

    ghost from_gives = { λ _ error. error ≡ constant.NoMemory };

    fn from(_error: NoMemory) -> ConstEvalError {
        ConstEvalError::NoMemory
    }
}

/// Want of memory is passed on, and each other refusal is carried.
impl From<MirLowerError> for ConstEvalError {
    ghost use Rattle.mir.specs.Errors.{from_lower_error};
    ghost use Rattle.std.specs.Prelude.{◌≡◌};

    ghost from_gives = { λ error constant. constant ≡ from_lower_error error };

    fn from(error: MirLowerError) -> ConstEvalError {
        match error {
            MirLowerError::NoMemory => ConstEvalError::NoMemory,
            other => ConstEvalError::MirLowerError(other),
        }
    }
}

/// Want of memory is passed on, and each other fault is carried.
impl From<MirEvalError> for ConstEvalError {
    ghost use Rattle.mir.specs.Errors.{from_eval_error};
    ghost use Rattle.std.specs.Prelude.{◌≡◌};

    ghost from_gives = { λ error constant. constant ≡ from_eval_error error };

    fn from(error: MirEvalError) -> ConstEvalError {
        match error {
            MirEvalError::NoMemory => ConstEvalError::NoMemory,
            other => ConstEvalError::MirEvalError(other),
        }
    }
}
