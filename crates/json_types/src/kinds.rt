//! Integer and float types, mutabilities, and generic parameters.

ghost use Rattle.json_types.specs.Kinds.{int_ty_of, uint_ty_of, float_ty_of, mutability_of, param_ty_of, param_const_of};

use crate::JsonTypes;
use json_kit::{FromJson, NotAWorld, here, members_of, required, variant_of, with_no_other};
use serde_json::Value;
use std::alloc::Global;
use types::{FloatTy, IntTy, Mutability, ParamConst, ParamTy, UintTy};

impl FromJson<JsonTypes> for IntTy {
    ghost reads = { int_ty_of };

    #[tactic(auto, unfolding(crate::specs::Kinds::int_ty_of))]
    fn from_json(alloc: Global, tree: &Value) -> Result<IntTy, NotAWorld> {
        let variant = variant_of(alloc, tree)?;
        if variant.is("I8") {
            return Ok(IntTy::I8);
        }
        if variant.is("I16") {
            return Ok(IntTy::I16);
        }
        if variant.is("I32") {
            return Ok(IntTy::I32);
        }
        if variant.is("I64") {
            return Ok(IntTy::I64);
        }
        if variant.is("I128") {
            return Ok(IntTy::I128);
        }
        if variant.is("Isize") {
            return Ok(IntTy::Isize);
        }
        Err(here(alloc))
    }
}

impl FromJson<JsonTypes> for UintTy {
    ghost reads = { uint_ty_of };

    #[tactic(auto, unfolding(crate::specs::Kinds::uint_ty_of))]
    fn from_json(alloc: Global, tree: &Value) -> Result<UintTy, NotAWorld> {
        let variant = variant_of(alloc, tree)?;
        if variant.is("U8") {
            return Ok(UintTy::U8);
        }
        if variant.is("U16") {
            return Ok(UintTy::U16);
        }
        if variant.is("U32") {
            return Ok(UintTy::U32);
        }
        if variant.is("U64") {
            return Ok(UintTy::U64);
        }
        if variant.is("U128") {
            return Ok(UintTy::U128);
        }
        if variant.is("Usize") {
            return Ok(UintTy::Usize);
        }
        Err(here(alloc))
    }
}

impl FromJson<JsonTypes> for FloatTy {
    ghost reads = { float_ty_of };

    #[tactic(auto, unfolding(crate::specs::Kinds::float_ty_of))]
    fn from_json(alloc: Global, tree: &Value) -> Result<FloatTy, NotAWorld> {
        let variant = variant_of(alloc, tree)?;
        if variant.is("F16") {
            return Ok(FloatTy::F16);
        }
        if variant.is("F32") {
            return Ok(FloatTy::F32);
        }
        if variant.is("F64") {
            return Ok(FloatTy::F64);
        }
        if variant.is("F128") {
            return Ok(FloatTy::F128);
        }
        Err(here(alloc))
    }
}

impl FromJson<JsonTypes> for Mutability {
    ghost reads = { mutability_of };

    #[tactic(auto, unfolding(crate::specs::Kinds::mutability_of))]
    fn from_json(alloc: Global, tree: &Value) -> Result<Mutability, NotAWorld> {
        let variant = variant_of(alloc, tree)?;
        if variant.is("Not") {
            return Ok(Mutability::Not);
        }
        if variant.is("Mut") {
            return Ok(Mutability::Mut);
        }
        Err(here(alloc))
    }
}

impl FromJson<JsonTypes> for ParamTy {
    ghost reads = { param_ty_of };

    #[tactic(auto, unfolding(crate::specs::Kinds::param_ty_of))]
    fn from_json(alloc: Global, tree: &Value) -> Result<ParamTy, NotAWorld> {
        let members = members_of(alloc, tree)?;
        let id = required(alloc, tree, "id")?;
        let index = required(alloc, tree, "index")?;
        let value = ParamTy { id, index };
        let names = ["id", "index"];
        with_no_other(alloc, members, &names, value)
    }
}

impl FromJson<JsonTypes> for ParamConst {
    ghost reads = { param_const_of };

    #[tactic(auto, unfolding(crate::specs::Kinds::param_const_of))]
    fn from_json(alloc: Global, tree: &Value) -> Result<ParamConst, NotAWorld> {
        let members = members_of(alloc, tree)?;
        let id = required(alloc, tree, "id")?;
        let index = required(alloc, tree, "index")?;
        let value = ParamConst { id, index };
        let names = ["id", "index"];
        with_no_other(alloc, members, &names, value)
    }
}
