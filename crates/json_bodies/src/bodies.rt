//! Bodies.

ghost use Rattle.json_bodies.specs.Bodies.{binding_annotation_of, binding_of, body_of};

use crate::JsonBodies;
use json_kit::{
    FromJson, NotAWorld, here, members_of, optional, required, variant_of, with_no_other,
};
use serde_json::Value;
use std::alloc::Global;
use world::{Binding, BindingAnnotation, Body};

impl FromJson<JsonBodies> for BindingAnnotation {
    ghost reads = { binding_annotation_of };

    #[tactic(auto, unfolding(crate::specs::Bodies::binding_annotation_of))]
    fn from_json(alloc: Global, tree: &Value) -> Result<BindingAnnotation, NotAWorld> {
        let variant = variant_of(alloc, tree)?;
        if variant.is("Unannotated") {
            return Ok(BindingAnnotation::Unannotated);
        }
        if variant.is("Mutable") {
            return Ok(BindingAnnotation::Mutable);
        }
        if variant.is("Ref") {
            return Ok(BindingAnnotation::Ref);
        }
        if variant.is("RefMut") {
            return Ok(BindingAnnotation::RefMut);
        }
        Err(here(alloc))
    }
}

impl FromJson<JsonBodies> for Binding {
    ghost reads = { binding_of };

    #[tactic(auto, unfolding(crate::specs::Bodies::binding_of))]
    fn from_json(alloc: Global, tree: &Value) -> Result<Binding, NotAWorld> {
        let members = members_of(alloc, tree)?;
        let name = required(alloc, tree, "name")?;
        let mode = required(alloc, tree, "mode")?;
        let owner = optional(alloc, tree, "owner")?;
        let value = Binding { name, mode, owner };
        let names = ["name", "mode", "owner"];
        with_no_other(alloc, members, &names, value)
    }
}

impl FromJson<JsonBodies> for Body {
    ghost reads = { body_of };

    #[tactic(auto, unfolding(crate::specs::Bodies::body_of))]
    fn from_json(alloc: Global, tree: &Value) -> Result<Body, NotAWorld> {
        let members = members_of(alloc, tree)?;
        let exprs = optional(alloc, tree, "exprs")?;
        let pats = optional(alloc, tree, "pats")?;
        let bindings = optional(alloc, tree, "bindings")?;
        let labels = optional(alloc, tree, "labels")?;
        let params = optional(alloc, tree, "params")?;
        let self_param = optional(alloc, tree, "self_param")?;
        let body_expr = required(alloc, tree, "body_expr")?;
        let value = Body {
            exprs,
            pats,
            bindings,
            labels,
            params,
            self_param,
            body_expr,
        };
        let names = [
            "exprs",
            "pats",
            "bindings",
            "labels",
            "params",
            "self_param",
            "body_expr",
        ];
        with_no_other(alloc, members, &names, value)
    }
}
