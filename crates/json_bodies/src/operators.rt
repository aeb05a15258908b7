//! Operators.

ghost use Rattle.json_bodies.specs.Operators.{unary_op_of, logic_op_of, arith_op_of, ordering_of, cmp_op_of, cmp_op_eq_of, cmp_op_ord_of, binary_op_of, binary_op_assignment_of};

use crate::JsonBodies;
use json_kit::{
    Fields, FromJson, NotAWorld, here, members_of, optional, required, variant_of, with_no_other,
};
use serde_json::Value;
use std::alloc::Global;
use types::{ArithOp, BinaryOp, CmpOp, LogicOp, Ordering, UnaryOp};

impl FromJson<JsonBodies> for UnaryOp {
    ghost reads = { unary_op_of };

    #[tactic(auto, unfolding(crate::specs::Operators::unary_op_of))]
    fn from_json(alloc: Global, tree: &Value) -> Result<UnaryOp, NotAWorld> {
        let variant = variant_of(alloc, tree)?;
        if variant.is("Deref") {
            return Ok(UnaryOp::Deref);
        }
        if variant.is("Not") {
            return Ok(UnaryOp::Not);
        }
        if variant.is("Neg") {
            return Ok(UnaryOp::Neg);
        }
        Err(here(alloc))
    }
}

impl FromJson<JsonBodies> for LogicOp {
    ghost reads = { logic_op_of };

    #[tactic(auto, unfolding(crate::specs::Operators::logic_op_of))]
    fn from_json(alloc: Global, tree: &Value) -> Result<LogicOp, NotAWorld> {
        let variant = variant_of(alloc, tree)?;
        if variant.is("And") {
            return Ok(LogicOp::And);
        }
        if variant.is("Or") {
            return Ok(LogicOp::Or);
        }
        Err(here(alloc))
    }
}

impl FromJson<JsonBodies> for ArithOp {
    ghost reads = { arith_op_of };

    #[tactic(auto, unfolding(crate::specs::Operators::arith_op_of))]
    fn from_json(alloc: Global, tree: &Value) -> Result<ArithOp, NotAWorld> {
        let variant = variant_of(alloc, tree)?;
        if variant.is("Add") {
            return Ok(ArithOp::Add);
        }
        if variant.is("Mul") {
            return Ok(ArithOp::Mul);
        }
        if variant.is("Sub") {
            return Ok(ArithOp::Sub);
        }
        if variant.is("Div") {
            return Ok(ArithOp::Div);
        }
        if variant.is("Rem") {
            return Ok(ArithOp::Rem);
        }
        if variant.is("Shl") {
            return Ok(ArithOp::Shl);
        }
        if variant.is("Shr") {
            return Ok(ArithOp::Shr);
        }
        if variant.is("BitXor") {
            return Ok(ArithOp::BitXor);
        }
        if variant.is("BitOr") {
            return Ok(ArithOp::BitOr);
        }
        if variant.is("BitAnd") {
            return Ok(ArithOp::BitAnd);
        }
        Err(here(alloc))
    }
}

impl FromJson<JsonBodies> for Ordering {
    ghost reads = { ordering_of };

    #[tactic(auto, unfolding(crate::specs::Operators::ordering_of))]
    fn from_json(alloc: Global, tree: &Value) -> Result<Ordering, NotAWorld> {
        let variant = variant_of(alloc, tree)?;
        if variant.is("Less") {
            return Ok(Ordering::Less);
        }
        if variant.is("Greater") {
            return Ok(Ordering::Greater);
        }
        Err(here(alloc))
    }
}

impl FromJson<JsonBodies> for CmpOp {
    ghost reads = { cmp_op_of };

    #[tactic(auto, unfolding(crate::specs::Operators::cmp_op_of))]
    fn from_json(alloc: Global, tree: &Value) -> Result<CmpOp, NotAWorld> {
        let variant = variant_of(alloc, tree)?;
        if let Some(value) = variant.fields::<CmpOpEqFields>(alloc, "Eq")? {
            return Ok(value);
        }
        if let Some(value) = variant.fields::<CmpOpOrdFields>(alloc, "Ord")? {
            return Ok(value);
        }
        Err(here(alloc))
    }
}

/// The fields of `CmpOp::Eq`.
pub(crate) struct CmpOpEqFields;

impl Fields for CmpOpEqFields {
    type Whole = CmpOp;

    ghost reads = { cmp_op_eq_of };

    #[tactic(auto, unfolding(crate::specs::Operators::cmp_op_eq_of))]
    fn read(alloc: Global, tree: &Value) -> Result<CmpOp, NotAWorld> {
        let members = members_of(alloc, tree)?;
        let negated = optional(alloc, tree, "negated")?;
        let value = CmpOp::Eq { negated };
        let names = ["negated"];
        with_no_other(alloc, members, &names, value)
    }
}

/// The fields of `CmpOp::Ord`.
pub(crate) struct CmpOpOrdFields;

impl Fields for CmpOpOrdFields {
    type Whole = CmpOp;

    ghost reads = { cmp_op_ord_of };

    #[tactic(auto, unfolding(crate::specs::Operators::cmp_op_ord_of))]
    fn read(alloc: Global, tree: &Value) -> Result<CmpOp, NotAWorld> {
        let members = members_of(alloc, tree)?;
        let ordering = required(alloc, tree, "ordering")?;
        let strict = optional(alloc, tree, "strict")?;
        let value = CmpOp::Ord { ordering, strict };
        let names = ["ordering", "strict"];
        with_no_other(alloc, members, &names, value)
    }
}

impl FromJson<JsonBodies> for BinaryOp {
    ghost reads = { binary_op_of };

    #[tactic(auto, unfolding(crate::specs::Operators::binary_op_of))]
    fn from_json(alloc: Global, tree: &Value) -> Result<BinaryOp, NotAWorld> {
        let variant = variant_of(alloc, tree)?;
        if let Some(part) = variant.payload(alloc, "LogicOp")? {
            return Ok(BinaryOp::LogicOp(part));
        }
        if let Some(part) = variant.payload(alloc, "ArithOp")? {
            return Ok(BinaryOp::ArithOp(part));
        }
        if let Some(part) = variant.payload(alloc, "CmpOp")? {
            return Ok(BinaryOp::CmpOp(part));
        }
        if let Some(value) = variant.fields::<BinaryOpAssignmentFields>(alloc, "Assignment")? {
            return Ok(value);
        }
        Err(here(alloc))
    }
}

/// The fields of `BinaryOp::Assignment`.
pub(crate) struct BinaryOpAssignmentFields;

impl Fields for BinaryOpAssignmentFields {
    type Whole = BinaryOp;

    ghost reads = { binary_op_assignment_of };

    #[tactic(auto, unfolding(crate::specs::Operators::binary_op_assignment_of))]
    fn read(alloc: Global, tree: &Value) -> Result<BinaryOp, NotAWorld> {
        let members = members_of(alloc, tree)?;
        let op = optional(alloc, tree, "op")?;
        let value = BinaryOp::Assignment { op };
        let names = ["op"];
        with_no_other(alloc, members, &names, value)
    }
}
