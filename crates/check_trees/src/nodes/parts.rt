//! Adds the ids in the parts of a node, as its statements and match arms, to a list.
ghost use Rattle.std.specs.Prelude.{◌≡◌, ◌∷◌, [], ◌++◌, OnOk, flat_map, map};
ghost use Rattle.world.specs.Nodes.{arm_children, expr_numbers, field_numbers, optional, optional_pat, pat_numbers, spread_children, statement_children, statement_patterns};

use world::{
    ExprId, MatchArm, NoMemory, PatId, RecordFieldPat, RecordLitField, RecordSpread, Statement,
};

/// Adds an expression to a list.
pub(crate) fn push_expr(out: &mut Vec<u64>, id: ExprId) -> Result<(), NoMemory>
    ensures { OnOk result (out.new.items ≡ out.old.items ++ (id.0 ∷ [])) }
{
    out.push(id.0 as u64)?;
    Ok(())
}

/// Adds two expressions to a list.
pub(crate) fn push_two(out: &mut Vec<u64>, a: ExprId, b: ExprId) -> Result<(), NoMemory>
    ensures { OnOk result (out.new.items ≡ out.old.items ++ (a.0 ∷ b.0 ∷ [])) }
{
    out.push(a.0 as u64)?;
    out.push(b.0 as u64)?;
    Ok(())
}

/// Adds an optional expression to a list.
pub(crate) fn push_optional(out: &mut Vec<u64>, id: Option<ExprId>) -> Result<(), NoMemory>
    ensures { OnOk result (out.new.items ≡ out.old.items ++ optional id) }
{
    if let Some(id) = id {
        out.push(id.0 as u64)?;
    }
    Ok(())
}

/// Adds two optional expressions to a list.
pub(crate) fn push_two_optional(
    out: &mut Vec<u64>,
    a: Option<ExprId>,
    b: Option<ExprId>,
) -> Result<(), NoMemory>
    ensures { OnOk result (out.new.items ≡ out.old.items ++ (optional a ++ optional b)) }
{
    push_optional(out, a)?;
    push_optional(out, b)
}

/// Adds expressions to a list.
pub(crate) fn push_exprs(out: &mut Vec<u64>, ids: &[ExprId]) -> Result<(), NoMemory>
    ensures { OnOk result (out.new.items ≡ out.old.items ++ expr_numbers ids.now) }
{
    for (i, id) in ids.iter().enumerate() {
        out.push(id.0 as u64)?;
    }
    Ok(())
}

/// Adds an expression, and then others, to a list.
pub(crate) fn push_with_exprs(
    out: &mut Vec<u64>,
    first: ExprId,
    ids: &[ExprId],
) -> Result<(), NoMemory>
    ensures { OnOk result (out.new.items ≡ out.old.items ++ (first.0 ∷ expr_numbers ids.now)) }
{
    out.push(first.0 as u64)?;
    push_exprs(out, ids)
}

/// Adds the expressions of an `if` to a list.
pub(crate) fn push_branches(
    out: &mut Vec<u64>,
    condition: ExprId,
    then_branch: ExprId,
    else_branch: Option<ExprId>,
) -> Result<(), NoMemory>
    ensures { OnOk result (out.new.items ≡ out.old.items ++ (condition.0 ∷ then_branch.0 ∷ optional else_branch)) }
{
    out.push(condition.0 as u64)?;
    out.push(then_branch.0 as u64)?;
    push_optional(out, else_branch)
}

/// Adds the expressions of a statement to a list.
fn push_statement(out: &mut Vec<u64>, statement: &Statement) -> Result<(), NoMemory>
    ensures { OnOk result (out.new.items ≡ out.old.items ++ statement_children statement.now) }
{
    match statement {
        Statement::Let {
            pat: _,
            initializer,
            else_branch,
        } => push_two_optional(out, *initializer, *else_branch),
        Statement::Expr { expr, has_semi: _ } => push_expr(out, *expr),
        Statement::Item => Ok(()),
    }
}

/// Adds the expressions of statements to a list.
fn push_statements(out: &mut Vec<u64>, statements: &[Statement]) -> Result<(), NoMemory>
    ensures { OnOk result (out.new.items ≡ out.old.items ++ flat_map statement_children statements.now) }
{
    for (i, statement) in statements.iter().enumerate() {
        push_statement(out, statement)?;
    }
    Ok(())
}

/// Adds the expressions of a block to a list.
pub(crate) fn push_block(
    out: &mut Vec<u64>,
    statements: &[Statement],
    tail: Option<ExprId>,
) -> Result<(), NoMemory>
    ensures { OnOk result (out.new.items ≡ out.old.items ++ (flat_map statement_children statements.now ++ optional tail)) }
{
    push_statements(out, statements)?;
    push_optional(out, tail)
}

/// Adds the expressions of a match arm to a list.
fn push_arm(out: &mut Vec<u64>, arm: &MatchArm) -> Result<(), NoMemory>
    ensures { OnOk result (out.new.items ≡ out.old.items ++ arm_children arm.now) }
{
    push_optional(out, arm.guard)?;
    push_expr(out, arm.expr)
}

/// Adds the expressions of match arms to a list.
fn push_arms(out: &mut Vec<u64>, arms: &[MatchArm]) -> Result<(), NoMemory>
    ensures { OnOk result (out.new.items ≡ out.old.items ++ flat_map arm_children arms.now) }
{
    for (i, arm) in arms.iter().enumerate() {
        push_arm(out, arm)?;
    }
    Ok(())
}

/// Adds the expressions of a `match` to a list.
pub(crate) fn push_match(
    out: &mut Vec<u64>,
    matched: ExprId,
    arms: &[MatchArm],
) -> Result<(), NoMemory>
    ensures { OnOk result (out.new.items ≡ out.old.items ++ (matched.0 ∷ flat_map arm_children arms.now)) }
{
    out.push(matched.0 as u64)?;
    push_arms(out, arms)
}

/// Adds the expressions of a record literal's fields to a list.
fn push_fields(out: &mut Vec<u64>, fields: &[RecordLitField]) -> Result<(), NoMemory>
    ensures { OnOk result (out.new.items ≡ out.old.items ++ field_numbers fields.now) }
{
    for (i, field) in fields.iter().enumerate() {
        out.push(field.expr.0 as u64)?;
    }
    Ok(())
}

/// Adds the base expression of a record literal, if it has one, to a list.
fn push_spread(out: &mut Vec<u64>, base: RecordSpread) -> Result<(), NoMemory>
    ensures { OnOk result (out.new.items ≡ out.old.items ++ spread_children base) }
{
    match base {
        RecordSpread::Expr(id) => push_expr(out, id),
        RecordSpread::None => Ok(()),
        RecordSpread::FieldDefaults => Ok(()),
    }
}

/// Adds the expressions of a record literal to a list.
pub(crate) fn push_record(
    out: &mut Vec<u64>,
    fields: &[RecordLitField],
    base: RecordSpread,
) -> Result<(), NoMemory>
    ensures { OnOk result (out.new.items ≡ out.old.items ++ (field_numbers fields.now ++ spread_children base)) }
{
    push_fields(out, fields)?;
    push_spread(out, base)
}

/// Adds a pattern to a list.
pub(crate) fn push_pat(out: &mut Vec<u64>, id: PatId) -> Result<(), NoMemory>
    ensures { OnOk result (out.new.items ≡ out.old.items ++ (id.0 ∷ [])) }
{
    out.push(id.0 as u64)?;
    Ok(())
}

/// Adds an optional pattern to a list.
pub(crate) fn push_optional_pat(out: &mut Vec<u64>, id: Option<PatId>) -> Result<(), NoMemory>
    ensures { OnOk result (out.new.items ≡ out.old.items ++ optional_pat id) }
{
    if let Some(id) = id {
        out.push(id.0 as u64)?;
    }
    Ok(())
}

/// Adds patterns to a list.
pub(crate) fn push_pats(out: &mut Vec<u64>, ids: &[PatId]) -> Result<(), NoMemory>
    ensures { OnOk result (out.new.items ≡ out.old.items ++ pat_numbers ids.now) }
{
    for (i, id) in ids.iter().enumerate() {
        out.push(id.0 as u64)?;
    }
    Ok(())
}

/// Adds the patterns of statements to a list.
pub(crate) fn push_statement_patterns(
    out: &mut Vec<u64>,
    statements: &[Statement],
) -> Result<(), NoMemory>
    ensures { OnOk result (out.new.items ≡ out.old.items ++ flat_map statement_patterns statements.now) }
{
    for (i, statement) in statements.iter().enumerate() {
        if let Statement::Let { pat, .. } = statement {
            out.push(pat.0 as u64)?;
        }
    }
    Ok(())
}

/// Adds the patterns of match arms to a list.
pub(crate) fn push_arm_patterns(out: &mut Vec<u64>, arms: &[MatchArm]) -> Result<(), NoMemory>
    ensures { OnOk result (out.new.items ≡ out.old.items ++ map (λ (arm : MatchArm). arm.pat.0) arms.now) }
{
    for (i, arm) in arms.iter().enumerate() {
        out.push(arm.pat.0 as u64)?;
    }
    Ok(())
}

/// Adds the patterns of a record pattern's fields to a list.
pub(crate) fn push_field_patterns(
    out: &mut Vec<u64>,
    fields: &[RecordFieldPat],
) -> Result<(), NoMemory>
    ensures { OnOk result (out.new.items ≡ out.old.items ++ map (λ (field : RecordFieldPat). field.pat.0) fields.now) }
{
    for (i, field) in fields.iter().enumerate() {
        out.push(field.pat.0 as u64)?;
    }
    Ok(())
}

/// Adds the patterns of a slice pattern to a list.
pub(crate) fn push_slice_patterns(
    out: &mut Vec<u64>,
    prefix: &[PatId],
    middle: Option<PatId>,
    suffix: &[PatId],
) -> Result<(), NoMemory>
    ensures { OnOk result (out.new.items ≡ out.old.items ++ (pat_numbers prefix.now ++ (optional_pat middle ++ pat_numbers suffix.now))) }
{
    push_pats(out, prefix)?;
    push_optional_pat(out, middle)?;
    push_pats(out, suffix)
}
