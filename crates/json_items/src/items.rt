//! Rows of items.

ghost use Rattle.std.specs.Prelude.{option_map};
ghost use Rattle.serde_json.specs.View.{view};
ghost use Rattle.json_kit.specs.Fit.{Gives};
ghost use Rattle.json_items.specs.Items.{crate_row_of, fn_sig_of, special_of, number_special_of, memory_special_of, other_special_of, function_row_of, const_row_of, static_row_of, field_row_of, fields_shape_of, struct_row_of, enum_row_of, variant_row_of, const_param_row_of};

use crate::JsonItems;
use json_kit::{
    FromJson, NotAWorld, Variant, here, members_of, optional, required, variant_of, with_no_other,
};
use serde_json::Value;
use std::alloc::Global;
use world::{
    ConstParamRow, ConstRow, CrateRow, EnumRow, FieldRow, FieldsShape, FnSig, FunctionRow, Special,
    StaticRow, StructRow, VariantRow,
};

impl FromJson<JsonItems> for CrateRow {
    ghost reads = { crate_row_of };

    #[tactic(auto, unfolding(crate::specs::Items::crate_row_of))]
    fn from_json(alloc: Global, tree: &Value) -> Result<CrateRow, NotAWorld> {
        let members = members_of(alloc, tree)?;
        let pointer_bytes = optional(alloc, tree, "pointer_bytes")?;
        let value = CrateRow { pointer_bytes };
        let names = ["pointer_bytes"];
        with_no_other(alloc, members, &names, value)
    }
}

impl FromJson<JsonItems> for FnSig {
    ghost reads = { fn_sig_of };

    #[tactic(auto, unfolding(crate::specs::Items::fn_sig_of))]
    fn from_json(alloc: Global, tree: &Value) -> Result<FnSig, NotAWorld> {
        let members = members_of(alloc, tree)?;
        let params = optional(alloc, tree, "params")?;
        let ret = required(alloc, tree, "ret")?;
        let value = FnSig { params, ret };
        let names = ["params", "ret"];
        with_no_other(alloc, members, &names, value)
    }
}

impl FromJson<JsonItems> for Special {
    ghost reads = { special_of };

    #[tactic(auto, unfolding(crate::specs::Items::special_of))]
    fn from_json(alloc: Global, tree: &Value) -> Result<Special, NotAWorld> {
        let variant = variant_of(alloc, tree)?;
        if let Some(value) = number_special(alloc, variant)? {
            return Ok(value);
        }
        if let Some(value) = memory_special(alloc, variant)? {
            return Ok(value);
        }
        if let Some(value) = other_special(alloc, variant)? {
            return Ok(value);
        }
        Err(here(alloc))
    }
}

#[tactic(auto, unfolding(crate::specs::Items::number_special_of))]
fn number_special(_alloc: Global, variant: Variant) -> Result<Option<Special>, NotAWorld>
    ensures { Gives result (number_special_of (variant.entry.name.now, option_map (λ part. view part.now) variant.entry.payload)) }
{
    if variant.is("SizeOf") {
        return Ok(Some(Special::SizeOf));
    }
    if variant.is("Transmute") {
        return Ok(Some(Special::Transmute));
    }
    if variant.is("WrappingAdd") {
        return Ok(Some(Special::WrappingAdd));
    }
    if variant.is("AddWithOverflow") {
        return Ok(Some(Special::AddWithOverflow));
    }
    if variant.is("SaturatingAdd") {
        return Ok(Some(Special::SaturatingAdd));
    }
    if variant.is("SaturatingSub") {
        return Ok(Some(Special::SaturatingSub));
    }
    Ok(None)
}

#[tactic(auto, unfolding(crate::specs::Items::memory_special_of))]
fn memory_special(_alloc: Global, variant: Variant) -> Result<Option<Special>, NotAWorld>
    ensures { Gives result (memory_special_of (variant.entry.name.now, option_map (λ part. view part.now) variant.entry.payload)) }
{
    if variant.is("CopyNonoverlapping") {
        return Ok(Some(Special::CopyNonoverlapping));
    }
    if variant.is("WriteBytes") {
        return Ok(Some(Special::WriteBytes));
    }
    if variant.is("Memcmp") {
        return Ok(Some(Special::Memcmp));
    }
    if variant.is("SliceLen") {
        return Ok(Some(Special::SliceLen));
    }
    if variant.is("Write") {
        return Ok(Some(Special::Write));
    }
    Ok(None)
}

#[tactic(auto, unfolding(crate::specs::Items::other_special_of))]
fn other_special(alloc: Global, variant: Variant) -> Result<Option<Special>, NotAWorld>
    ensures { Gives result (other_special_of (variant.entry.name.now, option_map (λ part. view part.now) variant.entry.payload)) }
{
    if variant.is("Panic") {
        return Ok(Some(Special::Panic));
    }
    if let Some(part) = variant.payload(alloc, "Other")? {
        return Ok(Some(Special::Other(part)));
    }
    Ok(None)
}

impl FromJson<JsonItems> for FunctionRow {
    ghost reads = { function_row_of };

    #[tactic(auto, unfolding(crate::specs::Items::function_row_of))]
    fn from_json(alloc: Global, tree: &Value) -> Result<FunctionRow, NotAWorld> {
        let members = members_of(alloc, tree)?;
        let name = required(alloc, tree, "name")?;
        let krate = required(alloc, tree, "krate")?;
        let in_trait = optional(alloc, tree, "in_trait")?;
        let generics = optional(alloc, tree, "generics")?;
        let sig = required(alloc, tree, "sig")?;
        let special = optional(alloc, tree, "special")?;
        let body = optional(alloc, tree, "body")?;
        let value = FunctionRow {
            name,
            krate,
            in_trait,
            generics,
            sig,
            special,
            body,
        };
        let names = [
            "name", "krate", "in_trait", "generics", "sig", "special", "body",
        ];
        with_no_other(alloc, members, &names, value)
    }
}

impl FromJson<JsonItems> for ConstRow {
    ghost reads = { const_row_of };

    #[tactic(auto, unfolding(crate::specs::Items::const_row_of))]
    fn from_json(alloc: Global, tree: &Value) -> Result<ConstRow, NotAWorld> {
        let members = members_of(alloc, tree)?;
        let name = optional(alloc, tree, "name")?;
        let krate = required(alloc, tree, "krate")?;
        let generics = optional(alloc, tree, "generics")?;
        let ty = required(alloc, tree, "ty")?;
        let body = optional(alloc, tree, "body")?;
        let value = ConstRow {
            name,
            krate,
            generics,
            ty,
            body,
        };
        let names = ["name", "krate", "generics", "ty", "body"];
        with_no_other(alloc, members, &names, value)
    }
}

impl FromJson<JsonItems> for StaticRow {
    ghost reads = { static_row_of };

    #[tactic(auto, unfolding(crate::specs::Items::static_row_of))]
    fn from_json(alloc: Global, tree: &Value) -> Result<StaticRow, NotAWorld> {
        let members = members_of(alloc, tree)?;
        let name = required(alloc, tree, "name")?;
        let krate = required(alloc, tree, "krate")?;
        let ty = required(alloc, tree, "ty")?;
        let is_extern = optional(alloc, tree, "is_extern")?;
        let body = optional(alloc, tree, "body")?;
        let value = StaticRow {
            name,
            krate,
            ty,
            is_extern,
            body,
        };
        let names = ["name", "krate", "ty", "is_extern", "body"];
        with_no_other(alloc, members, &names, value)
    }
}

impl FromJson<JsonItems> for FieldRow {
    ghost reads = { field_row_of };

    #[tactic(auto, unfolding(crate::specs::Items::field_row_of))]
    fn from_json(alloc: Global, tree: &Value) -> Result<FieldRow, NotAWorld> {
        let members = members_of(alloc, tree)?;
        let name = required(alloc, tree, "name")?;
        let ty = required(alloc, tree, "ty")?;
        let value = FieldRow { name, ty };
        let names = ["name", "ty"];
        with_no_other(alloc, members, &names, value)
    }
}

impl FromJson<JsonItems> for FieldsShape {
    ghost reads = { fields_shape_of };

    #[tactic(auto, unfolding(crate::specs::Items::fields_shape_of))]
    fn from_json(alloc: Global, tree: &Value) -> Result<FieldsShape, NotAWorld> {
        let variant = variant_of(alloc, tree)?;
        if variant.is("Record") {
            return Ok(FieldsShape::Record);
        }
        if variant.is("Tuple") {
            return Ok(FieldsShape::Tuple);
        }
        if variant.is("Unit") {
            return Ok(FieldsShape::Unit);
        }
        Err(here(alloc))
    }
}

impl FromJson<JsonItems> for StructRow {
    ghost reads = { struct_row_of };

    #[tactic(auto, unfolding(crate::specs::Items::struct_row_of))]
    fn from_json(alloc: Global, tree: &Value) -> Result<StructRow, NotAWorld> {
        let members = members_of(alloc, tree)?;
        let name = required(alloc, tree, "name")?;
        let fields = optional(alloc, tree, "fields")?;
        let shape = required(alloc, tree, "shape")?;
        let manually_drop = optional(alloc, tree, "manually_drop")?;
        let is_box = optional(alloc, tree, "is_box")?;
        let value = StructRow {
            name,
            fields,
            shape,
            manually_drop,
            is_box,
        };
        let names = ["name", "fields", "shape", "manually_drop", "is_box"];
        with_no_other(alloc, members, &names, value)
    }
}

impl FromJson<JsonItems> for EnumRow {
    ghost reads = { enum_row_of };

    #[tactic(auto, unfolding(crate::specs::Items::enum_row_of))]
    fn from_json(alloc: Global, tree: &Value) -> Result<EnumRow, NotAWorld> {
        let members = members_of(alloc, tree)?;
        let name = required(alloc, tree, "name")?;
        let repr_signed = optional(alloc, tree, "repr_signed")?;
        let variants = optional(alloc, tree, "variants")?;
        let value = EnumRow {
            name,
            repr_signed,
            variants,
        };
        let names = ["name", "repr_signed", "variants"];
        with_no_other(alloc, members, &names, value)
    }
}

impl FromJson<JsonItems> for VariantRow {
    ghost reads = { variant_row_of };

    #[tactic(auto, unfolding(crate::specs::Items::variant_row_of))]
    fn from_json(alloc: Global, tree: &Value) -> Result<VariantRow, NotAWorld> {
        let members = members_of(alloc, tree)?;
        let name = required(alloc, tree, "name")?;
        let krate = required(alloc, tree, "krate")?;
        let parent = required(alloc, tree, "parent")?;
        let index = required(alloc, tree, "index")?;
        let fields = optional(alloc, tree, "fields")?;
        let shape = required(alloc, tree, "shape")?;
        let body = optional(alloc, tree, "body")?;
        let value = VariantRow {
            name,
            krate,
            parent,
            index,
            fields,
            shape,
            body,
        };
        let names = [
            "name", "krate", "parent", "index", "fields", "shape", "body",
        ];
        with_no_other(alloc, members, &names, value)
    }
}

impl FromJson<JsonItems> for ConstParamRow {
    ghost reads = { const_param_row_of };

    #[tactic(auto, unfolding(crate::specs::Items::const_param_row_of))]
    fn from_json(alloc: Global, tree: &Value) -> Result<ConstParamRow, NotAWorld> {
        let members = members_of(alloc, tree)?;
        let name = required(alloc, tree, "name")?;
        let ty = required(alloc, tree, "ty")?;
        let value = ConstParamRow { name, ty };
        let names = ["name", "ty"];
        with_no_other(alloc, members, &names, value)
    }
}
