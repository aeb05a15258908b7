//! Adjustments.

ghost use Rattle.json_items.specs.Adjusts.{pointer_cast_of, auto_borrow_of, overloaded_deref_of, adjust_of, adjustment_of};

use crate::JsonItems;
use json_kit::{
    FromJson, NotAWorld, here, members_of, optional, required, variant_of, with_no_other,
};
use serde_json::Value;
use std::alloc::Global;
use world::{Adjust, Adjustment, AutoBorrow, OverloadedDeref, PointerCast};

impl FromJson<JsonItems> for PointerCast {
    ghost reads = { pointer_cast_of };

    #[tactic(auto, unfolding(crate::specs::Adjusts::pointer_cast_of))]
    fn from_json(alloc: Global, tree: &Value) -> Result<PointerCast, NotAWorld> {
        let variant = variant_of(alloc, tree)?;
        if variant.is("ReifyFnPointer") {
            return Ok(PointerCast::ReifyFnPointer);
        }
        if variant.is("UnsafeFnPointer") {
            return Ok(PointerCast::UnsafeFnPointer);
        }
        if variant.is("ClosureFnPointer") {
            return Ok(PointerCast::ClosureFnPointer);
        }
        if variant.is("MutToConstPointer") {
            return Ok(PointerCast::MutToConstPointer);
        }
        if variant.is("ArrayToPointer") {
            return Ok(PointerCast::ArrayToPointer);
        }
        if variant.is("Unsize") {
            return Ok(PointerCast::Unsize);
        }
        Err(here(alloc))
    }
}

impl FromJson<JsonItems> for AutoBorrow {
    ghost reads = { auto_borrow_of };

    #[tactic(auto, unfolding(crate::specs::Adjusts::auto_borrow_of))]
    fn from_json(alloc: Global, tree: &Value) -> Result<AutoBorrow, NotAWorld> {
        let variant = variant_of(alloc, tree)?;
        if let Some(part) = variant.payload(alloc, "Ref")? {
            return Ok(AutoBorrow::Ref(part));
        }
        if let Some(part) = variant.payload(alloc, "RawPtr")? {
            return Ok(AutoBorrow::RawPtr(part));
        }
        Err(here(alloc))
    }
}

impl FromJson<JsonItems> for OverloadedDeref {
    ghost reads = { overloaded_deref_of };

    #[tactic(auto, unfolding(crate::specs::Adjusts::overloaded_deref_of))]
    fn from_json(alloc: Global, tree: &Value) -> Result<OverloadedDeref, NotAWorld> {
        let members = members_of(alloc, tree)?;
        let mutability = optional(alloc, tree, "mutability")?;
        let value = OverloadedDeref { mutability };
        let names = ["mutability"];
        with_no_other(alloc, members, &names, value)
    }
}

impl FromJson<JsonItems> for Adjust {
    ghost reads = { adjust_of };

    #[tactic(auto, unfolding(crate::specs::Adjusts::adjust_of))]
    fn from_json(alloc: Global, tree: &Value) -> Result<Adjust, NotAWorld> {
        let variant = variant_of(alloc, tree)?;
        if variant.is("NeverToAny") {
            return Ok(Adjust::NeverToAny);
        }
        if let Some(part) = variant.payload(alloc, "Deref")? {
            return Ok(Adjust::Deref(part));
        }
        if let Some(part) = variant.payload(alloc, "Borrow")? {
            return Ok(Adjust::Borrow(part));
        }
        if let Some(part) = variant.payload(alloc, "Pointer")? {
            return Ok(Adjust::Pointer(part));
        }
        Err(here(alloc))
    }
}

impl FromJson<JsonItems> for Adjustment {
    ghost reads = { adjustment_of };

    #[tactic(auto, unfolding(crate::specs::Adjusts::adjustment_of))]
    fn from_json(alloc: Global, tree: &Value) -> Result<Adjustment, NotAWorld> {
        let members = members_of(alloc, tree)?;
        let kind = required(alloc, tree, "kind")?;
        let target = required(alloc, tree, "target")?;
        let value = Adjustment { kind, target };
        let names = ["kind", "target"];
        with_no_other(alloc, members, &names, value)
    }
}
