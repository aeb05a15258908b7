//! Literals.

ghost use Rattle.std.specs.Prelude.{option_map};
ghost use Rattle.serde_json.specs.View.{view};
ghost use Rattle.json_kit.specs.Fit.{Gives};
ghost use Rattle.json_bodies.specs.Literals.{literal_of, text_literal_of, number_literal_of};

use crate::JsonBodies;
use json_kit::{FromJson, NotAWorld, Variant, here, variant_of};
use serde_json::Value;
use std::alloc::Global;
use world::Literal;

impl FromJson<JsonBodies> for Literal {
    ghost reads = { literal_of };

    #[tactic(auto, unfolding(crate::specs::Literals::literal_of))]
    fn from_json(alloc: Global, tree: &Value) -> Result<Literal, NotAWorld> {
        let variant = variant_of(alloc, tree)?;
        if let Some(value) = text_literal(alloc, variant)? {
            return Ok(value);
        }
        if let Some(value) = number_literal(alloc, variant)? {
            return Ok(value);
        }
        Err(here(alloc))
    }
}

#[tactic(auto, unfolding(crate::specs::Literals::text_literal_of))]
fn text_literal(alloc: Global, variant: Variant) -> Result<Option<Literal>, NotAWorld>
    ensures { Gives result (text_literal_of (variant.entry.name.now, option_map (λ part. view part.now) variant.entry.payload)) }
{
    if let Some(part) = variant.payload(alloc, "Str")? {
        return Ok(Some(Literal::Str(part)));
    }
    if let Some(part) = variant.payload(alloc, "CStr")? {
        return Ok(Some(Literal::CStr(part)));
    }
    if let Some(part) = variant.payload(alloc, "ByteStr")? {
        return Ok(Some(Literal::ByteStr(part)));
    }
    if let Some(part) = variant.payload(alloc, "Char")? {
        return Ok(Some(Literal::Char(part)));
    }
    Ok(None)
}

#[tactic(auto, unfolding(crate::specs::Literals::number_literal_of))]
fn number_literal(alloc: Global, variant: Variant) -> Result<Option<Literal>, NotAWorld>
    ensures { Gives result (number_literal_of (variant.entry.name.now, option_map (λ part. view part.now) variant.entry.payload)) }
{
    if let Some(part) = variant.payload(alloc, "Bool")? {
        return Ok(Some(Literal::Bool(part)));
    }
    if let Some((number, suffix)) = variant.payload(alloc, "Int")? {
        return Ok(Some(Literal::Int(number, suffix)));
    }
    if let Some((number, suffix)) = variant.payload(alloc, "Uint")? {
        return Ok(Some(Literal::Uint(number, suffix)));
    }
    if let Some((number, suffix)) = variant.payload(alloc, "Float")? {
        return Ok(Some(Literal::Float(number, suffix)));
    }
    Ok(None)
}
