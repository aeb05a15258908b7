//! Resolved impl items.

ghost use Rattle.json_items.specs.Impls.{impl_row_of, const_impl_row_of};

use crate::JsonItems;
use json_kit::{FromJson, NotAWorld, members_of, optional, required, with_no_other};
use serde_json::Value;
use std::alloc::Global;
use world::{ConstImplRow, ImplRow};

impl FromJson<JsonItems> for ImplRow {
    ghost reads = { impl_row_of };

    #[tactic(auto, unfolding(crate::specs::Impls::impl_row_of))]
    fn from_json(alloc: Global, tree: &Value) -> Result<ImplRow, NotAWorld> {
        let members = members_of(alloc, tree)?;
        let function = required(alloc, tree, "function")?;
        let args = optional(alloc, tree, "args")?;
        let target = required(alloc, tree, "target")?;
        let target_args = optional(alloc, tree, "target_args")?;
        let value = ImplRow {
            function,
            args,
            target,
            target_args,
        };
        let names = ["function", "args", "target", "target_args"];
        with_no_other(alloc, members, &names, value)
    }
}

impl FromJson<JsonItems> for ConstImplRow {
    ghost reads = { const_impl_row_of };

    #[tactic(auto, unfolding(crate::specs::Impls::const_impl_row_of))]
    fn from_json(alloc: Global, tree: &Value) -> Result<ConstImplRow, NotAWorld> {
        let members = members_of(alloc, tree)?;
        let konst = required(alloc, tree, "konst")?;
        let args = optional(alloc, tree, "args")?;
        let target = required(alloc, tree, "target")?;
        let target_args = optional(alloc, tree, "target_args")?;
        let value = ConstImplRow {
            konst,
            args,
            target,
            target_args,
        };
        let names = ["konst", "args", "target", "target_args"];
        with_no_other(alloc, members, &names, value)
    }
}
