//! Closures.

ghost use Rattle.json_items.specs.Closures.{mut_borrow_kind_of, borrow_kind_of, borrow_kind_mut_of, capture_kind_of, hir_place_projection_of, capture_of, fn_trait_of, closure_row_of};

use crate::JsonItems;
use json_kit::{
    Fields, FromJson, NotAWorld, here, members_of, optional, required, variant_of, with_no_other,
};
use serde_json::Value;
use std::alloc::Global;
use world::{
    BorrowKind, Capture, CaptureKind, ClosureRow, FnTrait, HirPlaceProjection, MutBorrowKind,
};

impl FromJson<JsonItems> for MutBorrowKind {
    ghost reads = { mut_borrow_kind_of };

    #[tactic(auto, unfolding(crate::specs::Closures::mut_borrow_kind_of))]
    fn from_json(alloc: Global, tree: &Value) -> Result<MutBorrowKind, NotAWorld> {
        let variant = variant_of(alloc, tree)?;
        if variant.is("ClosureCapture") {
            return Ok(MutBorrowKind::ClosureCapture);
        }
        if variant.is("Default") {
            return Ok(MutBorrowKind::Default);
        }
        if variant.is("TwoPhasedBorrow") {
            return Ok(MutBorrowKind::TwoPhasedBorrow);
        }
        Err(here(alloc))
    }
}

impl FromJson<JsonItems> for BorrowKind {
    ghost reads = { borrow_kind_of };

    #[tactic(auto, unfolding(crate::specs::Closures::borrow_kind_of))]
    fn from_json(alloc: Global, tree: &Value) -> Result<BorrowKind, NotAWorld> {
        let variant = variant_of(alloc, tree)?;
        if variant.is("Shared") {
            return Ok(BorrowKind::Shared);
        }
        if variant.is("Shallow") {
            return Ok(BorrowKind::Shallow);
        }
        if let Some(value) = variant.fields::<BorrowKindMutFields>(alloc, "Mut")? {
            return Ok(value);
        }
        Err(here(alloc))
    }
}

/// The fields of `BorrowKind::Mut`.
pub(crate) struct BorrowKindMutFields;

impl Fields for BorrowKindMutFields {
    type Whole = BorrowKind;

    ghost reads = { borrow_kind_mut_of };

    #[tactic(auto, unfolding(crate::specs::Closures::borrow_kind_mut_of))]
    fn read(alloc: Global, tree: &Value) -> Result<BorrowKind, NotAWorld> {
        let members = members_of(alloc, tree)?;
        let kind = required(alloc, tree, "kind")?;
        let value = BorrowKind::Mut { kind };
        let names = ["kind"];
        with_no_other(alloc, members, &names, value)
    }
}

impl FromJson<JsonItems> for CaptureKind {
    ghost reads = { capture_kind_of };

    #[tactic(auto, unfolding(crate::specs::Closures::capture_kind_of))]
    fn from_json(alloc: Global, tree: &Value) -> Result<CaptureKind, NotAWorld> {
        let variant = variant_of(alloc, tree)?;
        if let Some(part) = variant.payload(alloc, "ByRef")? {
            return Ok(CaptureKind::ByRef(part));
        }
        if variant.is("ByValue") {
            return Ok(CaptureKind::ByValue);
        }
        Err(here(alloc))
    }
}

impl FromJson<JsonItems> for HirPlaceProjection {
    ghost reads = { hir_place_projection_of };

    #[tactic(auto, unfolding(crate::specs::Closures::hir_place_projection_of))]
    fn from_json(alloc: Global, tree: &Value) -> Result<HirPlaceProjection, NotAWorld> {
        let variant = variant_of(alloc, tree)?;
        if variant.is("Deref") {
            return Ok(HirPlaceProjection::Deref);
        }
        if let Some(part) = variant.payload(alloc, "Field")? {
            return Ok(HirPlaceProjection::Field(part));
        }
        if let Some(part) = variant.payload(alloc, "TupleField")? {
            return Ok(HirPlaceProjection::TupleField(part));
        }
        Err(here(alloc))
    }
}

impl FromJson<JsonItems> for Capture {
    ghost reads = { capture_of };

    #[tactic(auto, unfolding(crate::specs::Closures::capture_of))]
    fn from_json(alloc: Global, tree: &Value) -> Result<Capture, NotAWorld> {
        let members = members_of(alloc, tree)?;
        let local = required(alloc, tree, "local")?;
        let projections = optional(alloc, tree, "projections")?;
        let kind = required(alloc, tree, "kind")?;
        let ty = required(alloc, tree, "ty")?;
        let span = required(alloc, tree, "span")?;
        let value = Capture {
            local,
            projections,
            kind,
            ty,
            span,
        };
        let names = ["local", "projections", "kind", "ty", "span"];
        with_no_other(alloc, members, &names, value)
    }
}

impl FromJson<JsonItems> for FnTrait {
    ghost reads = { fn_trait_of };

    #[tactic(auto, unfolding(crate::specs::Closures::fn_trait_of))]
    fn from_json(alloc: Global, tree: &Value) -> Result<FnTrait, NotAWorld> {
        let variant = variant_of(alloc, tree)?;
        if variant.is("Fn") {
            return Ok(FnTrait::Fn);
        }
        if variant.is("FnMut") {
            return Ok(FnTrait::FnMut);
        }
        if variant.is("FnOnce") {
            return Ok(FnTrait::FnOnce);
        }
        Err(here(alloc))
    }
}

impl FromJson<JsonItems> for ClosureRow {
    ghost reads = { closure_row_of };

    #[tactic(auto, unfolding(crate::specs::Closures::closure_row_of))]
    fn from_json(alloc: Global, tree: &Value) -> Result<ClosureRow, NotAWorld> {
        let members = members_of(alloc, tree)?;
        let owner = required(alloc, tree, "owner")?;
        let expr = required(alloc, tree, "expr")?;
        let kind = required(alloc, tree, "kind")?;
        let params = optional(alloc, tree, "params")?;
        let captures = optional(alloc, tree, "captures")?;
        let value = ClosureRow {
            owner,
            expr,
            kind,
            params,
            captures,
        };
        let names = ["owner", "expr", "kind", "params", "captures"];
        with_no_other(alloc, members, &names, value)
    }
}
