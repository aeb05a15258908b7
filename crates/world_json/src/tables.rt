//! The world's tables.

ghost use Rattle.serde_json.specs.View.{view};
ghost use Rattle.json_kit.specs.Fit.{Gives};
ghost use Rattle.world_json.specs.Tables.{body_row_of, hir_database_of, hir_database_items_of, hir_database_adts_of, hir_database_names_of, hir_database_bodies_of, hir_database_choices_of, hir_database_dereferences_of, hir_database_calls_of, hir_database_definitions_of, hir_database_meanings_of};

use crate::WorldJson;
use json_kit::{FromJson, NotAWorld, members_of, optional, required, with_no_other};
use serde_json::Value;
use std::alloc::Global;
use types::{AliasId, ConstId, FunctionId, GenericArgs, List, Table, Text, Ty};
use world::{
    BodyRow, ClosureRow, ConstImplRow, ConstParamRow, ConstRow, CrateRow, EnumRow, FunctionRow,
    HirDatabase, ImplRow, Layout, StaticRow, StructRow, VariantRow,
};

impl FromJson<WorldJson> for BodyRow {
    ghost reads = { body_row_of };

    #[tactic(auto, unfolding(crate::specs::Tables::body_row_of))]
    fn from_json(alloc: Global, tree: &Value) -> Result<BodyRow, NotAWorld> {
        let members = members_of(alloc, tree)?;
        let body = required(alloc, tree, "body")?;
        let infer = required(alloc, tree, "infer")?;
        let value = BodyRow { body, infer };
        let names = ["body", "infer"];
        with_no_other(alloc, members, &names, value)
    }
}

/// Reads crates, functions, constants and statics.
#[tactic(auto, unfolding(crate::specs::Tables::hir_database_items_of))]
fn hir_database_items(
    alloc: Global,
    tree: &Value,
) -> Result<
    (
        List<CrateRow>,
        List<FunctionRow>,
        List<ConstRow>,
        List<StaticRow>,
    ),
    NotAWorld,
>
    ensures { Gives result (hir_database_items_of (view tree.now)) }
{
    let crates = optional(alloc, tree, "crates")?;
    let functions = optional(alloc, tree, "functions")?;
    let consts = optional(alloc, tree, "consts")?;
    let statics = optional(alloc, tree, "statics")?;
    Ok((crates, functions, consts, statics))
}

/// Reads structs, unions, enums and variants.
#[tactic(auto, unfolding(crate::specs::Tables::hir_database_adts_of))]
fn hir_database_adts(
    alloc: Global,
    tree: &Value,
) -> Result<
    (
        List<StructRow>,
        List<StructRow>,
        List<EnumRow>,
        List<VariantRow>,
    ),
    NotAWorld,
>
    ensures { Gives result (hir_database_adts_of (view tree.now)) }
{
    let structs = optional(alloc, tree, "structs")?;
    let unions = optional(alloc, tree, "unions")?;
    let enums = optional(alloc, tree, "enums")?;
    let variants = optional(alloc, tree, "variants")?;
    Ok((structs, unions, enums, variants))
}

/// Reads traits, aliases and generic parameters.
#[tactic(auto, unfolding(crate::specs::Tables::hir_database_names_of))]
fn hir_database_names(
    alloc: Global,
    tree: &Value,
) -> Result<(List<Text>, List<Text>, List<Text>, List<ConstParamRow>), NotAWorld>
    ensures { Gives result (hir_database_names_of (view tree.now)) }
{
    let traits = optional(alloc, tree, "traits")?;
    let aliases = optional(alloc, tree, "aliases")?;
    let type_params = optional(alloc, tree, "type_params")?;
    let const_params = optional(alloc, tree, "const_params")?;
    Ok((traits, aliases, type_params, const_params))
}

/// Reads closures, bodies and layouts.
#[tactic(auto, unfolding(crate::specs::Tables::hir_database_bodies_of))]
fn hir_database_bodies(
    alloc: Global,
    tree: &Value,
) -> Result<(List<ClosureRow>, List<BodyRow>, Table<Ty, (Ty, Layout)>), NotAWorld>
    ensures { Gives result (hir_database_bodies_of (view tree.now)) }
{
    let closures = optional(alloc, tree, "closures")?;
    let bodies = optional(alloc, tree, "bodies")?;
    let layouts = optional(alloc, tree, "layouts")?;
    Ok((closures, bodies, layouts))
}

/// Reads normalized types and resolved impl items.
#[tactic(auto, unfolding(crate::specs::Tables::hir_database_choices_of))]
fn hir_database_choices(
    alloc: Global,
    tree: &Value,
) -> Result<
    (
        Table<(AliasId, GenericArgs), (AliasId, GenericArgs, Ty)>,
        Table<(FunctionId, GenericArgs), ImplRow>,
        Table<(ConstId, GenericArgs), ConstImplRow>,
    ),
    NotAWorld,
>
    ensures { Gives result (hir_database_choices_of (view tree.now)) }
{
    let normals = optional(alloc, tree, "normals")?;
    let impls = optional(alloc, tree, "impls")?;
    let const_impls = optional(alloc, tree, "const_impls")?;
    Ok((normals, impls, const_impls))
}

/// Reads the functions of `Drop`, `Deref` and `DerefMut`.
#[tactic(auto, unfolding(crate::specs::Tables::hir_database_dereferences_of))]
fn hir_database_dereferences(
    alloc: Global,
    tree: &Value,
) -> Result<(Option<FunctionId>, Option<FunctionId>, Option<FunctionId>), NotAWorld>
    ensures { Gives result (hir_database_dereferences_of (view tree.now)) }
{
    let drop_fn = optional(alloc, tree, "drop_fn")?;
    let deref_fn = optional(alloc, tree, "deref_fn")?;
    let deref_mut_fn = optional(alloc, tree, "deref_mut_fn")?;
    Ok((drop_fn, deref_fn, deref_mut_fn))
}

/// Reads the functions of `Fn`, `FnMut` and `FnOnce`.
#[tactic(auto, unfolding(crate::specs::Tables::hir_database_calls_of))]
fn hir_database_calls(
    alloc: Global,
    tree: &Value,
) -> Result<(Option<FunctionId>, Option<FunctionId>, Option<FunctionId>), NotAWorld>
    ensures { Gives result (hir_database_calls_of (view tree.now)) }
{
    let call_fn = optional(alloc, tree, "call_fn")?;
    let call_mut_fn = optional(alloc, tree, "call_mut_fn")?;
    let call_once_fn = optional(alloc, tree, "call_once_fn")?;
    Ok((call_fn, call_mut_fn, call_once_fn))
}

/// Reads crates, functions, constants, statics, structs, unions, enums and variants.
#[tactic(auto, unfolding(crate::specs::Tables::hir_database_definitions_of))]
fn hir_database_definitions(
    alloc: Global,
    tree: &Value,
) -> Result<
    (
        (
            List<CrateRow>,
            List<FunctionRow>,
            List<ConstRow>,
            List<StaticRow>,
        ),
        (
            List<StructRow>,
            List<StructRow>,
            List<EnumRow>,
            List<VariantRow>,
        ),
    ),
    NotAWorld,
>
    ensures { Gives result (hir_database_definitions_of (view tree.now)) }
{
    let items = hir_database_items(alloc, tree)?;
    let adts = hir_database_adts(alloc, tree)?;
    Ok((items, adts))
}

/// Reads normalized types, resolved impl items and the lang functions.
#[tactic(auto, unfolding(crate::specs::Tables::hir_database_meanings_of))]
fn hir_database_meanings(
    alloc: Global,
    tree: &Value,
) -> Result<
    (
        (
            Table<(AliasId, GenericArgs), (AliasId, GenericArgs, Ty)>,
            Table<(FunctionId, GenericArgs), ImplRow>,
            Table<(ConstId, GenericArgs), ConstImplRow>,
        ),
        (Option<FunctionId>, Option<FunctionId>, Option<FunctionId>),
        (Option<FunctionId>, Option<FunctionId>, Option<FunctionId>),
    ),
    NotAWorld,
>
    ensures { Gives result (hir_database_meanings_of (view tree.now)) }
{
    let choices = hir_database_choices(alloc, tree)?;
    let dereferences = hir_database_dereferences(alloc, tree)?;
    let calls = hir_database_calls(alloc, tree)?;
    Ok((choices, dereferences, calls))
}

impl FromJson<WorldJson> for HirDatabase {
    ghost reads = { hir_database_of };

    #[tactic(auto, unfolding(crate::specs::Tables::hir_database_of))]
    fn from_json(alloc: Global, tree: &Value) -> Result<HirDatabase, NotAWorld> {
        let members = members_of(alloc, tree)?;
        let (items, adts) = hir_database_definitions(alloc, tree)?;
        let (crates, functions, consts, statics) = items;
        let (structs, unions, enums, variants) = adts;
        let (traits, aliases, type_params, const_params) = hir_database_names(alloc, tree)?;
        let (closures, bodies, layouts) = hir_database_bodies(alloc, tree)?;
        let (choices, dereferences, calls) = hir_database_meanings(alloc, tree)?;
        let (normals, impls, const_impls) = choices;
        let (drop_fn, deref_fn, deref_mut_fn) = dereferences;
        let (call_fn, call_mut_fn, call_once_fn) = calls;
        let value = HirDatabase {
            crates,
            functions,
            consts,
            statics,
            structs,
            unions,
            enums,
            variants,
            traits,
            aliases,
            type_params,
            const_params,
            closures,
            bodies,
            layouts,
            normals,
            impls,
            const_impls,
            drop_fn,
            deref_fn,
            deref_mut_fn,
            call_fn,
            call_mut_fn,
            call_once_fn,
        };
        let names = [
            "crates",
            "functions",
            "consts",
            "statics",
            "structs",
            "unions",
            "enums",
            "variants",
            "traits",
            "aliases",
            "type_params",
            "const_params",
            "closures",
            "bodies",
            "layouts",
            "normals",
            "impls",
            "const_impls",
            "drop_fn",
            "deref_fn",
            "deref_mut_fn",
            "call_fn",
            "call_mut_fn",
            "call_once_fn",
        ];
        with_no_other(alloc, members, &names, value)
    }
}
