//! What the operations of strict forms are in the graph.

ghost use Rattle.std.specs.Prelude.{◌≡◌, ◌<◌, ◌∷◌, ℕ, List, [], length, IfOk, IfErr, OnOk, Some};
ghost use Rattle.source_meaning.specs.Built.{IsBuiltStrict};
ghost use Rattle.mir.specs.declared.operand.OperandKind.TheVariants.{Copy};
ghost use Rattle.mir.specs.declared.span.MirSpan.TheVariants as span;
ghost use Rattle.source_meaning.specs.Core as expr;
ghost use Rattle.source_meaning.specs.Source.{node};
ghost use Rattle.world.specs.Checked.{IsCheckedBody};
ghost use Rattle.world.specs.Nodes.{expr_numbers};
ghost use Rattle.body_forms.specs.Contexts.{source_of};
ghost use Rattle.body_forms.specs.Refusals.{RefusesNode};
ghost use Rattle.body_forms.specs.Operations.{IsKindOf, IsRvalueOf, several_operation, single_operation};

use crate::context::Context;
use crate::inferred::{array_of, own_ty};
use crate::unbuilt::type_error;
use mir::{
    AggregateKind, CastKind, MirLowerError, MirSpan, Operand, OperandKind, Place, Rvalue, UnOp,
};
use world::{ExprId, TryClone};

/// What is made of one operand.
#[derive(Clone, Copy)]
pub enum Single {
    Unary(UnOp),
    /// A cast that is a coercion: the bytes are kept as they are.
    Coercion,
    /// A cast between integers, `bool` and `char`: the number in the size of the cast's own type.
    Cast,
    /// An array of the operand's value as often as the array's type says.
    Repeat,
}

/// What is made of any number of operands.
#[derive(Clone, Copy)]
pub enum Several {
    Tuple,
    Array,
}

/// A place as an operand, which has the span of an expression.
pub fn copied(place: Place, e: ExprId) -> Operand
    ensures kind { result.kind ≡ Copy place }
    ensures span { result.span ≡ Some (span.ExprId e) }
{
    Operand {
        kind: OperandKind::Copy(place),
        span: Some(MirSpan::ExprId(e)),
    }
}

/// An operand converted to the type of the cast that an expression is.
fn converted(context: &Context<'_>, e: ExprId, value: Operand) -> Result<Rvalue, MirLowerError>
    requires checked { IsCheckedBody context.now.body.now context.now.infer.now }
    requires within { e.0 < length context.now.body.now.exprs }
    ensures made { IfOk result (IsRvalueOf (source_of context.now) e.0 expr.Convert (value ∷ [])) }
    ensures refused { IfErr result (RefusesNode (source_of context.now) e.0) }
{
    let ty = own_ty(context, e).try_clone(context.alloc)?;
    Ok(Rvalue::Cast(CastKind::IntToInt, value, ty))
}

/// An operand as often as the type of the array says that an expression is.
fn repeated(context: &Context<'_>, e: ExprId, value: Operand) -> Result<Rvalue, MirLowerError>
    requires checked { IsCheckedBody context.now.body.now context.now.infer.now }
    requires within { e.0 < length context.now.body.now.exprs }
    requires form { (operands : List ℕ) × (node (source_of context.now) e.0 ≡ Some (expr.Strict expr.Repeat operands)) }
    ensures made { IfOk result (IsRvalueOf (source_of context.now) e.0 expr.Repeat (value ∷ [])) }
    ensures built { OnOk result (IsBuiltStrict (source_of context.now) e.0 expr.Repeat) }
    ensures refused { IfErr result (RefusesNode (source_of context.now) e.0) }
{
    let Some(array) = array_of(context, e) else {
        return Err(type_error(context.alloc, "Array repeat expression with non array type"));
    };
    let len = array.1.try_clone(context.alloc)?;
    Ok(Rvalue::Repeat(value, len))
}

/// What an expression makes of its one operand.
pub fn made_of(
    context: &Context<'_>,
    e: ExprId,
    single: Single,
    value: Operand,
) -> Result<Rvalue, MirLowerError>
    requires checked { IsCheckedBody context.now.body.now context.now.infer.now }
    requires within { e.0 < length context.now.body.now.exprs }
    requires form { (operands : List ℕ) × (node (source_of context.now) e.0 ≡ Some (expr.Strict (single_operation single) operands)) }
    ensures made { IfOk result (IsRvalueOf (source_of context.now) e.0 (single_operation single) (value ∷ [])) }
    ensures built { OnOk result (IsBuiltStrict (source_of context.now) e.0 (single_operation single)) }
    ensures refused { IfErr result (RefusesNode (source_of context.now) e.0) }
{
    match single {
        Single::Unary(op) => Ok(Rvalue::UnaryOp(op, value)),
        Single::Coercion => Ok(Rvalue::Use(value)),
        Single::Cast => converted(context, e, value),
        Single::Repeat => repeated(context, e, value),
    }
}

/// What an aggregate is that an expression makes: of its own type, or, for an array, of the type of its elements.
pub fn kind_of(
    context: &Context<'_>,
    e: ExprId,
    several: Several,
) -> Result<AggregateKind, MirLowerError>
    requires checked { IsCheckedBody context.now.body.now context.now.infer.now }
    requires within { e.0 < length context.now.body.now.exprs }
    requires form { (operands : List ℕ) × (node (source_of context.now) e.0 ≡ Some (expr.Strict (several_operation several) operands)) }
    ensures made { IfOk result (IsKindOf (source_of context.now) e.0 several) }
    ensures built { OnOk result (IsBuiltStrict (source_of context.now) e.0 (several_operation several)) }
    ensures refused { IfErr result (RefusesNode (source_of context.now) e.0) }
{
    match several {
        Several::Tuple => {
            let ty = own_ty(context, e).try_clone(context.alloc)?;
            Ok(AggregateKind::Tuple(ty))
        }
        Several::Array => {
            let Some(array) = array_of(context, e) else {
                return Err(type_error(context.alloc, "Array expression with non array type"));
            };
            let element = array.0.try_clone(context.alloc)?;
            Ok(AggregateKind::Array(element))
        }
    }
}
