//! Literals as operands.

ghost use Rattle.std.specs.Prelude.{◌≡◌, ◌∷◌, [], ◌<◌, ◌≤◌, ℕ, take, length, IfOk, IfErr, OnOk, Some, pos};
ghost use Rattle.numbers.specs.Bytes.{low_bytes};
ghost use Rattle.source_meaning.specs.Meaning.{truth_byte};
ghost use Rattle.source_meaning.specs.Source.{node, own_type};
ghost use Rattle.source_meaning.specs.Core as expr;
ghost use Rattle.mir.specs.declared.errors.MirLowerError.TheVariants as refusal;
ghost use Rattle.world.specs.Checked.{IsCheckedBody};
ghost use Rattle.mir.specs.declared.operand.OperandKind.TheVariants.{Constant};
ghost use Rattle.mir.specs.Run.{constant_bytes};
ghost use Rattle.types.specs.declared.ty.Const.{Const};
ghost use Rattle.body_forms.specs.Contexts.{source_of};
ghost use Rattle.body_forms.specs.Form.{core_value};
ghost use Rattle.body_forms.specs.Literals.{IsConstantOf, IsNumberOf, IsLiteral};
ghost use Rattle.body_forms.specs.Literals.{HasNumberLayout, IsBuiltLiteral};
ghost use Rattle.body_forms.specs.Refusals.{IsNumber, RefusesNode};

use crate::context::Context;
use crate::inferred::own_ty;
use crate::unbuilt::type_error;
use mir::{MirLowerError, MirSpan, Operand, OperandKind, layout_error_of};
use std::alloc::Global;
use world::{Bytes, Const, ExprId, MemoryMap, TryClone, Ty, ValueConst};

/// A literal of a kind that is built: a truth value, a whole number, or a character, by its code point.
#[derive(Clone, Copy)]
pub enum LiteralValue {
    Truth(bool),
    Signed(i128),
    Unsigned(u128),
    Character(u32),
}

/// The lowest bytes of a number.
fn unsigned_bytes(number: u128) -> [u8; 16]
    ensures { (size : ℕ) → size ≤ 16 → low_bytes size (pos number) ≡ take size result }
{
    number.to_le_bytes()
}

/// The lowest bytes of a number, in two's complement.
fn signed_bytes(number: i128) -> [u8; 16]
    ensures { (size : ℕ) → size ≤ 16 → low_bytes size number ≡ take size result }
{
    number.cast_unsigned().to_le_bytes()
}

/// A constant of a type, as an operand.
pub(crate) fn constant(
    context: &Context<'_>,
    e: ExprId,
    ty: &Ty,
    memory: Bytes,
) -> Result<Operand, MirLowerError>
    requires { own_type (source_of context.now) e.0 ≡ Some ty.now }
    ensures lowered { IfOk result (λ operand. IsConstantOf (source_of context.now) e.0 memory operand.kind) }
    ensures refused { IfErr result (λ error. error ≡ refusal.NoMemory) }
{
    let konst = Const::Value(ValueConst {
        ty: ty.try_clone(context.alloc)?,
        memory,
        memory_map: MemoryMap::Empty,
    });
    let ty = ty.try_clone(context.alloc)?;
    Ok(Operand {
        kind: OperandKind::Constant { konst, ty },
        span: Some(MirSpan::ExprId(e)),
    })
}

/// A number literal with these lowest bytes as a constant: as many of them as its type has.
fn lower_number(context: &Context<'_>, e: ExprId, bytes: [u8; 16]) -> Result<Operand, MirLowerError>
    requires checked { IsCheckedBody context.now.body.now context.now.infer.now }
    requires within { e.0 < length context.now.body.now.exprs }
    requires number { IsNumber (node (source_of context.now) e.0) }
    ensures lowered { IfOk result (λ operand. IsNumberOf (source_of context.now) e.0 bytes operand.kind) }
    ensures built { OnOk result (HasNumberLayout (source_of context.now) e.0) }
    ensures refused { IfErr result (RefusesNode (source_of context.now) e.0) }
{
    let ty = own_ty(context, e);
    let Some(layout) = context.db.layout_of(ty) else {
        return Err(MirLowerError::LayoutError(layout_error_of(ty)));
    };
    if layout.size > 16 {
        return Err(type_error(context.alloc, "number literal of more than 16 bytes"));
    }
    let memory = Bytes::from_slice(context.alloc, &bytes[..layout.size as usize])?;
    constant(context, e, ty, memory)
}

/// A truth value as a constant: one byte.
fn lower_truth(context: &Context<'_>, e: ExprId, test: bool) -> Result<Operand, MirLowerError>
    requires checked { IsCheckedBody context.now.body.now context.now.infer.now }
    requires within { e.0 < length context.now.body.now.exprs }
    ensures lowered { IfOk result (λ operand. IsConstantOf (source_of context.now) e.0 (truth_byte test ∷ []) operand.kind) }
    ensures refused { IfErr result (λ error. error ≡ refusal.NoMemory) }
{
    let ty = own_ty(context, e);
    let memory = Bytes::from_slice(context.alloc, &[test as u8])?;
    constant(context, e, ty, memory)
}

/// A literal as a constant.
#[tactic(auto, unfolding(source_meaning::specs::Meaning::literal_bytes))]
pub fn lower_literal(
    context: &Context<'_>,
    e: ExprId,
    literal: LiteralValue,
) -> Result<Operand, MirLowerError>
    requires checked { IsCheckedBody context.now.body.now context.now.infer.now }
    requires within { e.0 < length context.now.body.now.exprs }
    requires literal { node (source_of context.now) e.0 ≡ Some (expr.Literal (core_value literal)) }
    ensures lowered { IfOk result (λ operand. IsLiteral (source_of context.now) e.0 (core_value literal) operand.kind) }
    ensures built { OnOk result (IsBuiltLiteral (source_of context.now) e.0 (core_value literal)) }
    ensures refused { IfErr result (RefusesNode (source_of context.now) e.0) }
{
    match literal {
        LiteralValue::Truth(test) => lower_truth(context, e, test),
        LiteralValue::Signed(number) => lower_number(context, e, signed_bytes(number)),
        LiteralValue::Unsigned(number) => lower_number(context, e, unsigned_bytes(number)),
        LiteralValue::Character(code) => lower_number(context, e, unsigned_bytes(code as u128)),
    }
}
