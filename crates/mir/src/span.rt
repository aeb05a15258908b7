//! Where in the source a part of a body comes from.

use world::{BindingId, ExprId, PatId};

/// The node of the source that something was lowered from.
#[derive(Clone, Copy, PartialEq, Eq, Debug)]
pub enum MirSpan {
    ExprId(ExprId),
    PatId(PatId),
    BindingId(BindingId),
    Unknown,
}

impl From<ExprId> for MirSpan {
    ghost use Rattle.std.specs.Prelude.{◌≡◌};
    ghost use Rattle.mir.specs.declared.span.MirSpan.TheVariants.{ExprId};

    ghost from_gives = { λ expr span. span ≡ ExprId expr };

    fn from(expr: ExprId) -> MirSpan {
        MirSpan::ExprId(expr)
    }
}

impl From<PatId> for MirSpan {
    ghost use Rattle.std.specs.Prelude.{◌≡◌};
    ghost use Rattle.mir.specs.declared.span.MirSpan.TheVariants.{PatId};

    ghost from_gives = { λ pat span. span ≡ PatId pat };

    fn from(pat: PatId) -> MirSpan {
        MirSpan::PatId(pat)
    }
}
