//! Patterns.

ghost use Rattle.std.specs.Prelude.{option_map};
ghost use Rattle.serde_json.specs.View.{view};
ghost use Rattle.json_kit.specs.Fit.{Gives};
ghost use Rattle.json_bodies.specs.Pats.{record_field_pat_of, range_op_of, pat_of, pat_tuple_of, pat_record_of, pat_range_of, pat_slice_of, pat_bind_of, pat_tuple_struct_of, pat_ref_of, bare_pat_of, simple_pat_of, part_pat_of, bound_pat_of, field_pat_of};

use crate::JsonBodies;
use json_kit::{
    Fields, FromJson, NotAWorld, Variant, here, members_of, optional, required, variant_of,
    with_no_other,
};
use serde_json::Value;
use std::alloc::Global;
use world::{Pat, RangeOp, RecordFieldPat};

impl FromJson<JsonBodies> for RecordFieldPat {
    ghost reads = { record_field_pat_of };

    #[tactic(auto, unfolding(crate::specs::Pats::record_field_pat_of))]
    fn from_json(alloc: Global, tree: &Value) -> Result<RecordFieldPat, NotAWorld> {
        let members = members_of(alloc, tree)?;
        let name = required(alloc, tree, "name")?;
        let pat = required(alloc, tree, "pat")?;
        let value = RecordFieldPat { name, pat };
        let names = ["name", "pat"];
        with_no_other(alloc, members, &names, value)
    }
}

impl FromJson<JsonBodies> for RangeOp {
    ghost reads = { range_op_of };

    #[tactic(auto, unfolding(crate::specs::Pats::range_op_of))]
    fn from_json(alloc: Global, tree: &Value) -> Result<RangeOp, NotAWorld> {
        let variant = variant_of(alloc, tree)?;
        if variant.is("Exclusive") {
            return Ok(RangeOp::Exclusive);
        }
        if variant.is("Inclusive") {
            return Ok(RangeOp::Inclusive);
        }
        Err(here(alloc))
    }
}

impl FromJson<JsonBodies> for Pat {
    ghost reads = { pat_of };

    #[tactic(auto, unfolding(crate::specs::Pats::pat_of))]
    fn from_json(alloc: Global, tree: &Value) -> Result<Pat, NotAWorld> {
        let variant = variant_of(alloc, tree)?;
        if let Some(value) = bare_pat(alloc, variant)? {
            return Ok(value);
        }
        if let Some(value) = simple_pat(alloc, variant)? {
            return Ok(value);
        }
        if let Some(value) = part_pat(alloc, variant)? {
            return Ok(value);
        }
        if let Some(value) = bound_pat(alloc, variant)? {
            return Ok(value);
        }
        if let Some(value) = field_pat(alloc, variant)? {
            return Ok(value);
        }
        Err(here(alloc))
    }
}

#[tactic(auto, unfolding(crate::specs::Pats::bare_pat_of))]
fn bare_pat(_alloc: Global, variant: Variant) -> Result<Option<Pat>, NotAWorld>
    ensures { Gives result (bare_pat_of (variant.entry.name.now, option_map (λ part. view part.now) variant.entry.payload)) }
{
    if variant.is("Missing") {
        return Ok(Some(Pat::Missing));
    }
    if variant.is("Wild") {
        return Ok(Some(Pat::Wild));
    }
    Ok(None)
}

#[tactic(auto, unfolding(crate::specs::Pats::simple_pat_of))]
fn simple_pat(alloc: Global, variant: Variant) -> Result<Option<Pat>, NotAWorld>
    ensures { Gives result (simple_pat_of (variant.entry.name.now, option_map (λ part. view part.now) variant.entry.payload)) }
{
    if let Some(part) = variant.payload(alloc, "Or")? {
        return Ok(Some(Pat::Or(part)));
    }
    if let Some(part) = variant.payload(alloc, "Path")? {
        return Ok(Some(Pat::Path(part)));
    }
    if let Some(part) = variant.payload(alloc, "Lit")? {
        return Ok(Some(Pat::Lit(part)));
    }
    if let Some(part) = variant.payload(alloc, "Expr")? {
        return Ok(Some(Pat::Expr(part)));
    }
    Ok(None)
}

#[tactic(auto, unfolding(crate::specs::Pats::part_pat_of))]
fn part_pat(alloc: Global, variant: Variant) -> Result<Option<Pat>, NotAWorld>
    ensures { Gives result (part_pat_of (variant.entry.name.now, option_map (λ part. view part.now) variant.entry.payload)) }
{
    if let Some(part) = variant.payload(alloc, "Box")? {
        return Ok(Some(Pat::Box(part)));
    }
    if let Some(part) = variant.payload(alloc, "ConstBlock")? {
        return Ok(Some(Pat::ConstBlock(part)));
    }
    if let Some(value) = variant.fields::<PatTupleFields>(alloc, "Tuple")? {
        return Ok(Some(value));
    }
    if let Some(value) = variant.fields::<PatRecordFields>(alloc, "Record")? {
        return Ok(Some(value));
    }
    Ok(None)
}

#[tactic(auto, unfolding(crate::specs::Pats::bound_pat_of))]
fn bound_pat(alloc: Global, variant: Variant) -> Result<Option<Pat>, NotAWorld>
    ensures { Gives result (bound_pat_of (variant.entry.name.now, option_map (λ part. view part.now) variant.entry.payload)) }
{
    if let Some(value) = variant.fields::<PatRangeFields>(alloc, "Range")? {
        return Ok(Some(value));
    }
    if let Some(value) = variant.fields::<PatSliceFields>(alloc, "Slice")? {
        return Ok(Some(value));
    }
    if let Some(value) = variant.fields::<PatBindFields>(alloc, "Bind")? {
        return Ok(Some(value));
    }
    Ok(None)
}

#[tactic(auto, unfolding(crate::specs::Pats::field_pat_of))]
fn field_pat(alloc: Global, variant: Variant) -> Result<Option<Pat>, NotAWorld>
    ensures { Gives result (field_pat_of (variant.entry.name.now, option_map (λ part. view part.now) variant.entry.payload)) }
{
    if let Some(value) = variant.fields::<PatTupleStructFields>(alloc, "TupleStruct")? {
        return Ok(Some(value));
    }
    if let Some(value) = variant.fields::<PatRefFields>(alloc, "Ref")? {
        return Ok(Some(value));
    }
    Ok(None)
}

/// The fields of `Pat::Tuple`.
pub(crate) struct PatTupleFields;

impl Fields for PatTupleFields {
    type Whole = Pat;

    ghost reads = { pat_tuple_of };

    #[tactic(auto, unfolding(crate::specs::Pats::pat_tuple_of))]
    fn read(alloc: Global, tree: &Value) -> Result<Pat, NotAWorld> {
        let members = members_of(alloc, tree)?;
        let args = optional(alloc, tree, "args")?;
        let ellipsis = optional(alloc, tree, "ellipsis")?;
        let value = Pat::Tuple { args, ellipsis };
        let names = ["args", "ellipsis"];
        with_no_other(alloc, members, &names, value)
    }
}

/// The fields of `Pat::Record`.
pub(crate) struct PatRecordFields;

impl Fields for PatRecordFields {
    type Whole = Pat;

    ghost reads = { pat_record_of };

    #[tactic(auto, unfolding(crate::specs::Pats::pat_record_of))]
    fn read(alloc: Global, tree: &Value) -> Result<Pat, NotAWorld> {
        let members = members_of(alloc, tree)?;
        let args = optional(alloc, tree, "args")?;
        let value = Pat::Record { args };
        let names = ["args"];
        with_no_other(alloc, members, &names, value)
    }
}

/// The fields of `Pat::Range`.
pub(crate) struct PatRangeFields;

impl Fields for PatRangeFields {
    type Whole = Pat;

    ghost reads = { pat_range_of };

    #[tactic(auto, unfolding(crate::specs::Pats::pat_range_of))]
    fn read(alloc: Global, tree: &Value) -> Result<Pat, NotAWorld> {
        let members = members_of(alloc, tree)?;
        let start = optional(alloc, tree, "start")?;
        let end = optional(alloc, tree, "end")?;
        let range_type = required(alloc, tree, "range_type")?;
        let value = Pat::Range {
            start,
            end,
            range_type,
        };
        let names = ["start", "end", "range_type"];
        with_no_other(alloc, members, &names, value)
    }
}

/// The fields of `Pat::Slice`.
pub(crate) struct PatSliceFields;

impl Fields for PatSliceFields {
    type Whole = Pat;

    ghost reads = { pat_slice_of };

    #[tactic(auto, unfolding(crate::specs::Pats::pat_slice_of))]
    fn read(alloc: Global, tree: &Value) -> Result<Pat, NotAWorld> {
        let members = members_of(alloc, tree)?;
        let prefix = optional(alloc, tree, "prefix")?;
        let slice = optional(alloc, tree, "slice")?;
        let suffix = optional(alloc, tree, "suffix")?;
        let value = Pat::Slice {
            prefix,
            slice,
            suffix,
        };
        let names = ["prefix", "slice", "suffix"];
        with_no_other(alloc, members, &names, value)
    }
}

/// The fields of `Pat::Bind`.
pub(crate) struct PatBindFields;

impl Fields for PatBindFields {
    type Whole = Pat;

    ghost reads = { pat_bind_of };

    #[tactic(auto, unfolding(crate::specs::Pats::pat_bind_of))]
    fn read(alloc: Global, tree: &Value) -> Result<Pat, NotAWorld> {
        let members = members_of(alloc, tree)?;
        let id = required(alloc, tree, "id")?;
        let subpat = optional(alloc, tree, "subpat")?;
        let value = Pat::Bind { id, subpat };
        let names = ["id", "subpat"];
        with_no_other(alloc, members, &names, value)
    }
}

/// The fields of `Pat::TupleStruct`.
pub(crate) struct PatTupleStructFields;

impl Fields for PatTupleStructFields {
    type Whole = Pat;

    ghost reads = { pat_tuple_struct_of };

    #[tactic(auto, unfolding(crate::specs::Pats::pat_tuple_struct_of))]
    fn read(alloc: Global, tree: &Value) -> Result<Pat, NotAWorld> {
        let members = members_of(alloc, tree)?;
        let args = optional(alloc, tree, "args")?;
        let ellipsis = optional(alloc, tree, "ellipsis")?;
        let value = Pat::TupleStruct { args, ellipsis };
        let names = ["args", "ellipsis"];
        with_no_other(alloc, members, &names, value)
    }
}

/// The fields of `Pat::Ref`.
pub(crate) struct PatRefFields;

impl Fields for PatRefFields {
    type Whole = Pat;

    ghost reads = { pat_ref_of };

    #[tactic(auto, unfolding(crate::specs::Pats::pat_ref_of))]
    fn read(alloc: Global, tree: &Value) -> Result<Pat, NotAWorld> {
        let members = members_of(alloc, tree)?;
        let pat = required(alloc, tree, "pat")?;
        let value = Pat::Ref { pat };
        let names = ["pat"];
        with_no_other(alloc, members, &names, value)
    }
}
