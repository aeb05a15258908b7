//! The check of one body, which no run of the program makes: the sum of `2` and `2`, as it is and with one
//! thing wrong in it.

use std::alloc::Global;
use std::test::Fail;
use world::{
    ArithOp, BinaryOp, Body, BodyRow, Expr, ExprId, HirDatabase, InferenceResult, List, Literal,
    NoMemory, Ty, UintTy,
};
use world_check::check_body;

/// The fault in the body.
#[derive(Clone, Copy, PartialEq, Eq, Debug)]
enum Change {
    Nothing,
    NoOperand,
    NoType,
    OwnOperand,
}

/// The sum of `2` and `2`.
fn sum(alloc: Global, change: Change) -> Result<List<Expr>, NoMemory> {
    let mut exprs = List::new(alloc);
    exprs.push(Expr::Literal(Literal::Uint(2, None)))?;
    exprs.push(Expr::Literal(Literal::Uint(2, None)))?;
    let lhs = match change {
        Change::NoOperand => 7,
        Change::OwnOperand => 2,
        _ => 0,
    };
    exprs.push(Expr::BinaryOp {
        lhs: ExprId(lhs),
        rhs: ExprId(1),
        op: Some(BinaryOp::ArithOp(ArithOp::Add)),
    })?;
    Ok(exprs)
}

/// A list of `count` types, each `usize`.
fn types(alloc: Global, count: usize) -> Result<List<Ty>, NoMemory> {
    let mut types = List::new(alloc);
    for _ in 0..count {
        types.push(Ty::Uint(UintTy::Usize))?;
    }
    Ok(types)
}

/// The body, with its types.
fn body(alloc: Global, change: Change) -> Result<BodyRow, NoMemory> {
    let mut infer = InferenceResult::new(alloc);
    infer.expr_types = types(alloc, if change == Change::NoType { 2 } else { 3 })?;
    let mut body = Body::new(alloc, ExprId(2));
    body.exprs = sum(alloc, change)?;
    Ok(BodyRow { body, infer })
}

/// Whether the body with one thing wrong passes by itself, in an empty world.
fn is_body_right(alloc: Global, change: Change) -> Result<bool, NoMemory> {
    let db = HirDatabase::new(alloc);
    let row = body(alloc, change)?;
    check_body(alloc, &db, &row.body, &row.infer)
}

#[test]
fn bodies_pass_by_themselves(rt: HostRuntime) -> Result<(), Fail> {
    for (change, passes) in [
        (Change::Nothing, true),
        (Change::NoOperand, false),
        (Change::NoType, false),
        (Change::OwnOperand, false),
    ] {
        let found = is_body_right(rt.alloc(), change)?;
        assert_eq!(rt; found, passes, "at {change:?}");
    }
    Ok(())
}
