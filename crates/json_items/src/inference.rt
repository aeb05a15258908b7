//! Inference results.

ghost use Rattle.std.specs.Prelude.{option_map};
ghost use Rattle.serde_json.specs.View.{view};
ghost use Rattle.json_kit.specs.Fit.{Gives};
ghost use Rattle.json_items.specs.Inference.{candidate_id_of, assoc_res_of, method_res_of, value_ns_of, item_value_ns_of, data_value_ns_of, binding_mode_of, inference_result_of, inference_result_node_types_of, inference_result_adjustments_of, inference_result_values_of, inference_result_members_of, inference_result_marks_of, inference_result_judgements_of};

use crate::JsonItems;
use either::Either;
use json_kit::{
    FromJson, NotAWorld, Variant, here, members_of, optional, required, variant_of, with_no_other,
};
use serde_json::Value;
use std::alloc::Global;
use types::{ExprId, FieldId, List, Map, PatId, TupleFieldId, Ty, VariantId};
use world::{Adjustment, AssocRes, BindingMode, CandidateId, InferenceResult, MethodRes, ValueNs};

impl FromJson<JsonItems> for CandidateId {
    ghost reads = { candidate_id_of };

    #[tactic(auto, unfolding(crate::specs::Inference::candidate_id_of))]
    fn from_json(alloc: Global, tree: &Value) -> Result<CandidateId, NotAWorld> {
        let variant = variant_of(alloc, tree)?;
        if let Some(part) = variant.payload(alloc, "ConstId")? {
            return Ok(CandidateId::ConstId(part));
        }
        if let Some(part) = variant.payload(alloc, "FunctionId")? {
            return Ok(CandidateId::FunctionId(part));
        }
        Err(here(alloc))
    }
}

impl FromJson<JsonItems> for AssocRes {
    ghost reads = { assoc_res_of };

    #[tactic(auto, unfolding(crate::specs::Inference::assoc_res_of))]
    fn from_json(alloc: Global, tree: &Value) -> Result<AssocRes, NotAWorld> {
        let members = members_of(alloc, tree)?;
        let def = required(alloc, tree, "def")?;
        let args = optional(alloc, tree, "args")?;
        let value = AssocRes { def, args };
        let names = ["def", "args"];
        with_no_other(alloc, members, &names, value)
    }
}

impl FromJson<JsonItems> for MethodRes {
    ghost reads = { method_res_of };

    #[tactic(auto, unfolding(crate::specs::Inference::method_res_of))]
    fn from_json(alloc: Global, tree: &Value) -> Result<MethodRes, NotAWorld> {
        let members = members_of(alloc, tree)?;
        let function = required(alloc, tree, "function")?;
        let args = optional(alloc, tree, "args")?;
        let value = MethodRes { function, args };
        let names = ["function", "args"];
        with_no_other(alloc, members, &names, value)
    }
}

impl FromJson<JsonItems> for ValueNs {
    ghost reads = { value_ns_of };

    #[tactic(auto, unfolding(crate::specs::Inference::value_ns_of))]
    fn from_json(alloc: Global, tree: &Value) -> Result<ValueNs, NotAWorld> {
        let variant = variant_of(alloc, tree)?;
        if let Some(value) = item_value_ns(alloc, variant)? {
            return Ok(value);
        }
        if let Some(value) = data_value_ns(alloc, variant)? {
            return Ok(value);
        }
        Err(here(alloc))
    }
}

#[tactic(auto, unfolding(crate::specs::Inference::item_value_ns_of))]
fn item_value_ns(alloc: Global, variant: Variant) -> Result<Option<ValueNs>, NotAWorld>
    ensures { Gives result (item_value_ns_of (variant.entry.name.now, option_map (λ part. view part.now) variant.entry.payload)) }
{
    if let Some(part) = variant.payload(alloc, "LocalBinding")? {
        return Ok(Some(ValueNs::LocalBinding(part)));
    }
    if let Some(part) = variant.payload(alloc, "FunctionId")? {
        return Ok(Some(ValueNs::FunctionId(part)));
    }
    if let Some(part) = variant.payload(alloc, "ConstId")? {
        return Ok(Some(ValueNs::ConstId(part)));
    }
    if let Some(part) = variant.payload(alloc, "StaticId")? {
        return Ok(Some(ValueNs::StaticId(part)));
    }
    Ok(None)
}

#[tactic(auto, unfolding(crate::specs::Inference::data_value_ns_of))]
fn data_value_ns(alloc: Global, variant: Variant) -> Result<Option<ValueNs>, NotAWorld>
    ensures { Gives result (data_value_ns_of (variant.entry.name.now, option_map (λ part. view part.now) variant.entry.payload)) }
{
    if let Some(part) = variant.payload(alloc, "StructId")? {
        return Ok(Some(ValueNs::StructId(part)));
    }
    if let Some(part) = variant.payload(alloc, "EnumVariantId")? {
        return Ok(Some(ValueNs::EnumVariantId(part)));
    }
    if let Some(part) = variant.payload(alloc, "GenericParam")? {
        return Ok(Some(ValueNs::GenericParam(part)));
    }
    if variant.is("ImplSelf") {
        return Ok(Some(ValueNs::ImplSelf));
    }
    Ok(None)
}

impl FromJson<JsonItems> for BindingMode {
    ghost reads = { binding_mode_of };

    #[tactic(auto, unfolding(crate::specs::Inference::binding_mode_of))]
    fn from_json(alloc: Global, tree: &Value) -> Result<BindingMode, NotAWorld> {
        let variant = variant_of(alloc, tree)?;
        if variant.is("Move") {
            return Ok(BindingMode::Move);
        }
        if let Some(part) = variant.payload(alloc, "Ref")? {
            return Ok(BindingMode::Ref(part));
        }
        Err(here(alloc))
    }
}

/// Reads the types of expressions, patterns and bindings.
#[tactic(auto, unfolding(crate::specs::Inference::inference_result_node_types_of))]
fn inference_result_node_types(
    alloc: Global,
    tree: &Value,
) -> Result<(List<Ty>, List<Ty>, List<Ty>), NotAWorld>
    ensures { Gives result (inference_result_node_types_of (view tree.now)) }
{
    let expr_types = optional(alloc, tree, "expr_types")?;
    let pat_types = optional(alloc, tree, "pat_types")?;
    let binding_types = optional(alloc, tree, "binding_types")?;
    Ok((expr_types, pat_types, binding_types))
}

/// Reads the adjustments of expressions and patterns.
#[tactic(auto, unfolding(crate::specs::Inference::inference_result_adjustments_of))]
fn inference_result_adjustments(
    alloc: Global,
    tree: &Value,
) -> Result<(Map<ExprId, List<Adjustment>>, Map<PatId, u32>), NotAWorld>
    ensures { Gives result (inference_result_adjustments_of (view tree.now)) }
{
    let expr_adjustments = optional(alloc, tree, "expr_adjustments")?;
    let pat_adjustments = optional(alloc, tree, "pat_adjustments")?;
    Ok((expr_adjustments, pat_adjustments))
}

/// Reads the resolutions of paths.
#[tactic(auto, unfolding(crate::specs::Inference::inference_result_values_of))]
fn inference_result_values(
    alloc: Global,
    tree: &Value,
) -> Result<
    (
        Map<ExprId, ValueNs>,
        Map<PatId, ValueNs>,
        Map<ExprId, AssocRes>,
        Map<PatId, AssocRes>,
    ),
    NotAWorld,
>
    ensures { Gives result (inference_result_values_of (view tree.now)) }
{
    let value_res = optional(alloc, tree, "value_res")?;
    let pat_value_res = optional(alloc, tree, "pat_value_res")?;
    let assoc_res = optional(alloc, tree, "assoc_res")?;
    let pat_assoc_res = optional(alloc, tree, "pat_assoc_res")?;
    Ok((value_res, pat_value_res, assoc_res, pat_assoc_res))
}

/// Reads the resolutions of variants, fields and methods.
#[tactic(auto, unfolding(crate::specs::Inference::inference_result_members_of))]
fn inference_result_members(
    alloc: Global,
    tree: &Value,
) -> Result<
    (
        Map<ExprId, VariantId>,
        Map<PatId, VariantId>,
        Map<ExprId, Either<FieldId, TupleFieldId>>,
        Map<ExprId, MethodRes>,
    ),
    NotAWorld,
>
    ensures { Gives result (inference_result_members_of (view tree.now)) }
{
    let variant_res = optional(alloc, tree, "variant_res")?;
    let pat_variant_res = optional(alloc, tree, "pat_variant_res")?;
    let field_res = optional(alloc, tree, "field_res")?;
    let method_res = optional(alloc, tree, "method_res")?;
    Ok((variant_res, pat_variant_res, field_res, method_res))
}

/// Reads the binding modes, the casts that are coercions, and the expressions that diverge.
#[tactic(auto, unfolding(crate::specs::Inference::inference_result_marks_of))]
fn inference_result_marks(
    alloc: Global,
    tree: &Value,
) -> Result<(Map<PatId, BindingMode>, List<ExprId>, List<ExprId>), NotAWorld>
    ensures { Gives result (inference_result_marks_of (view tree.now)) }
{
    let binding_modes = optional(alloc, tree, "binding_modes")?;
    let coercion_casts = optional(alloc, tree, "coercion_casts")?;
    let diverging = optional(alloc, tree, "diverging")?;
    Ok((binding_modes, coercion_casts, diverging))
}

/// Reads the types that are `Copy`, and the errors of inference.
#[tactic(auto, unfolding(crate::specs::Inference::inference_result_judgements_of))]
fn inference_result_judgements(
    alloc: Global,
    tree: &Value,
) -> Result<(List<Ty>, bool, List<ExprId>), NotAWorld>
    ensures { Gives result (inference_result_judgements_of (view tree.now)) }
{
    let copy_types = optional(alloc, tree, "copy_types")?;
    let erroneous = optional(alloc, tree, "erroneous")?;
    let mismatches = optional(alloc, tree, "mismatches")?;
    Ok((copy_types, erroneous, mismatches))
}

impl FromJson<JsonItems> for InferenceResult {
    ghost reads = { inference_result_of };

    #[tactic(auto, unfolding(crate::specs::Inference::inference_result_of))]
    fn from_json(alloc: Global, tree: &Value) -> Result<InferenceResult, NotAWorld> {
        let members = members_of(alloc, tree)?;
        let (expr_types, pat_types, binding_types) = inference_result_node_types(alloc, tree)?;
        let (expr_adjustments, pat_adjustments) = inference_result_adjustments(alloc, tree)?;
        let (value_res, pat_value_res, assoc_res, pat_assoc_res) = inference_result_values(
            alloc, tree,
        )?;
        let (variant_res, pat_variant_res, field_res, method_res) = inference_result_members(
            alloc, tree,
        )?;
        let (binding_modes, coercion_casts, diverging) = inference_result_marks(alloc, tree)?;
        let (copy_types, erroneous, mismatches) = inference_result_judgements(alloc, tree)?;
        let value = InferenceResult {
            expr_types,
            pat_types,
            binding_types,
            expr_adjustments,
            pat_adjustments,
            value_res,
            pat_value_res,
            assoc_res,
            pat_assoc_res,
            variant_res,
            pat_variant_res,
            field_res,
            method_res,
            binding_modes,
            coercion_casts,
            diverging,
            copy_types,
            erroneous,
            mismatches,
        };
        let names = [
            "expr_types",
            "pat_types",
            "binding_types",
            "expr_adjustments",
            "pat_adjustments",
            "value_res",
            "pat_value_res",
            "assoc_res",
            "pat_assoc_res",
            "variant_res",
            "pat_variant_res",
            "field_res",
            "method_res",
            "binding_modes",
            "coercion_casts",
            "diverging",
            "copy_types",
            "erroneous",
            "mismatches",
        ];
        with_no_other(alloc, members, &names, value)
    }
}
