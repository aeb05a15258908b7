//! What a body says of an operand.

ghost use Rattle.std.specs.Prelude.{◌≡◌, option_and_then};
ghost use Rattle.std.specs.Option.{option_copied};
ghost use Rattle.numbers.specs.Operators.{kind_of};
ghost use Rattle.mir.specs.Run.{constant_bytes, operand_type};

use crate::places::place_type;
use mir::{MirBody, OperandKind};
use numbers::Kind;
use world::{Const, HirDatabase};

/// The bytes of a constant, where it is a value.
#[inline(always)]
pub fn constant_bytes(konst: &Const) -> Option<&[u8]>
    ensures { option_copied result ≡ constant_bytes konst.now }
{
    match konst {
        Const::Value(value) => Some(value.memory.as_slice()),
        _ => None,
    }
}

/// What the bytes of an operand are, where they are a number or a truth value.
#[tactic(auto, unfolding(mir::specs::Run::operand_type))]
pub fn operand_kind(db: &HirDatabase, body: &MirBody, kind: &OperandKind) -> Option<Kind>
    ensures { result ≡ option_and_then kind_of (operand_type db.now body.now kind.now) }
{
    match kind {
        OperandKind::Copy(place) => match place_type(db, body, *place) {
            Some(ty) => Kind::of(ty),
            None => None,
        },
        OperandKind::Constant { ty, .. } => Kind::of(ty),
    }
}
