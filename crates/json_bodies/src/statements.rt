//! Statements.

ghost use Rattle.json_bodies.specs.Statements.{statement_of, statement_let_of, statement_expr_of};

use crate::JsonBodies;
use json_kit::{
    Fields, FromJson, NotAWorld, here, members_of, optional, required, variant_of, with_no_other,
};
use serde_json::Value;
use std::alloc::Global;
use world::Statement;

impl FromJson<JsonBodies> for Statement {
    ghost reads = { statement_of };

    #[tactic(auto, unfolding(crate::specs::Statements::statement_of))]
    fn from_json(alloc: Global, tree: &Value) -> Result<Statement, NotAWorld> {
        let variant = variant_of(alloc, tree)?;
        if let Some(value) = variant.fields::<StatementLetFields>(alloc, "Let")? {
            return Ok(value);
        }
        if let Some(value) = variant.fields::<StatementExprFields>(alloc, "Expr")? {
            return Ok(value);
        }
        if variant.is("Item") {
            return Ok(Statement::Item);
        }
        Err(here(alloc))
    }
}

/// The fields of `Statement::Let`.
pub(crate) struct StatementLetFields;

impl Fields for StatementLetFields {
    type Whole = Statement;

    ghost reads = { statement_let_of };

    #[tactic(auto, unfolding(crate::specs::Statements::statement_let_of))]
    fn read(alloc: Global, tree: &Value) -> Result<Statement, NotAWorld> {
        let members = members_of(alloc, tree)?;
        let pat = required(alloc, tree, "pat")?;
        let initializer = optional(alloc, tree, "initializer")?;
        let else_branch = optional(alloc, tree, "else_branch")?;
        let value = Statement::Let {
            pat,
            initializer,
            else_branch,
        };
        let names = ["pat", "initializer", "else_branch"];
        with_no_other(alloc, members, &names, value)
    }
}

/// The fields of `Statement::Expr`.
pub(crate) struct StatementExprFields;

impl Fields for StatementExprFields {
    type Whole = Statement;

    ghost reads = { statement_expr_of };

    #[tactic(auto, unfolding(crate::specs::Statements::statement_expr_of))]
    fn read(alloc: Global, tree: &Value) -> Result<Statement, NotAWorld> {
        let members = members_of(alloc, tree)?;
        let expr = required(alloc, tree, "expr")?;
        let has_semi = optional(alloc, tree, "has_semi")?;
        let value = Statement::Expr { expr, has_semi };
        let names = ["expr", "has_semi"];
        with_no_other(alloc, members, &names, value)
    }
}
