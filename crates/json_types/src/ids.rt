//! Ids of items and of nodes, which are numbers.

ghost use Rattle.json_types.specs.Ids.{crate_of, function_id_of, const_id_of, static_id_of, struct_id_of, union_id_of, enum_id_of, enum_variant_id_of, trait_id_of, alias_id_of, type_param_id_of, const_param_id_of, interned_closure_id_of, expr_id_of, pat_id_of, binding_id_of, label_id_of, adt_id_of, variant_id_of, callable_def_id_of, def_with_body_id_of, generic_param_id_of, general_const_id_of, field_id_of, tuple_field_id_of};

use crate::JsonTypes;
use json_kit::{FromJson, NotAWorld, here, members_of, required, variant_of, with_no_other};
use serde_json::Value;
use std::alloc::Global;
use types::{
    AdtId, AliasId, BindingId, CallableDefId, ConstId, ConstParamId, Crate, DefWithBodyId, EnumId,
    EnumVariantId, ExprId, FieldId, FunctionId, GeneralConstId, GenericParamId, InternedClosureId,
    LabelId, PatId, StaticId, StructId, TraitId, TupleFieldId, TypeParamId, UnionId, VariantId,
};

impl FromJson<JsonTypes> for Crate {
    ghost reads = { crate_of };

    fn from_json(alloc: Global, tree: &Value) -> Result<Crate, NotAWorld> {
        let place = u32::from_json(alloc, tree)?;
        Ok(Crate(place))
    }
}

impl FromJson<JsonTypes> for FunctionId {
    ghost reads = { function_id_of };

    fn from_json(alloc: Global, tree: &Value) -> Result<FunctionId, NotAWorld> {
        let place = u32::from_json(alloc, tree)?;
        Ok(FunctionId(place))
    }
}

impl FromJson<JsonTypes> for ConstId {
    ghost reads = { const_id_of };

    fn from_json(alloc: Global, tree: &Value) -> Result<ConstId, NotAWorld> {
        let place = u32::from_json(alloc, tree)?;
        Ok(ConstId(place))
    }
}

impl FromJson<JsonTypes> for StaticId {
    ghost reads = { static_id_of };

    fn from_json(alloc: Global, tree: &Value) -> Result<StaticId, NotAWorld> {
        let place = u32::from_json(alloc, tree)?;
        Ok(StaticId(place))
    }
}

impl FromJson<JsonTypes> for StructId {
    ghost reads = { struct_id_of };

    fn from_json(alloc: Global, tree: &Value) -> Result<StructId, NotAWorld> {
        let place = u32::from_json(alloc, tree)?;
        Ok(StructId(place))
    }
}

impl FromJson<JsonTypes> for UnionId {
    ghost reads = { union_id_of };

    fn from_json(alloc: Global, tree: &Value) -> Result<UnionId, NotAWorld> {
        let place = u32::from_json(alloc, tree)?;
        Ok(UnionId(place))
    }
}

impl FromJson<JsonTypes> for EnumId {
    ghost reads = { enum_id_of };

    fn from_json(alloc: Global, tree: &Value) -> Result<EnumId, NotAWorld> {
        let place = u32::from_json(alloc, tree)?;
        Ok(EnumId(place))
    }
}

impl FromJson<JsonTypes> for EnumVariantId {
    ghost reads = { enum_variant_id_of };

    fn from_json(alloc: Global, tree: &Value) -> Result<EnumVariantId, NotAWorld> {
        let place = u32::from_json(alloc, tree)?;
        Ok(EnumVariantId(place))
    }
}

impl FromJson<JsonTypes> for TraitId {
    ghost reads = { trait_id_of };

    fn from_json(alloc: Global, tree: &Value) -> Result<TraitId, NotAWorld> {
        let place = u32::from_json(alloc, tree)?;
        Ok(TraitId(place))
    }
}

impl FromJson<JsonTypes> for AliasId {
    ghost reads = { alias_id_of };

    fn from_json(alloc: Global, tree: &Value) -> Result<AliasId, NotAWorld> {
        let place = u32::from_json(alloc, tree)?;
        Ok(AliasId(place))
    }
}

impl FromJson<JsonTypes> for TypeParamId {
    ghost reads = { type_param_id_of };

    fn from_json(alloc: Global, tree: &Value) -> Result<TypeParamId, NotAWorld> {
        let place = u32::from_json(alloc, tree)?;
        Ok(TypeParamId(place))
    }
}

impl FromJson<JsonTypes> for ConstParamId {
    ghost reads = { const_param_id_of };

    fn from_json(alloc: Global, tree: &Value) -> Result<ConstParamId, NotAWorld> {
        let place = u32::from_json(alloc, tree)?;
        Ok(ConstParamId(place))
    }
}

impl FromJson<JsonTypes> for InternedClosureId {
    ghost reads = { interned_closure_id_of };

    fn from_json(alloc: Global, tree: &Value) -> Result<InternedClosureId, NotAWorld> {
        let place = u32::from_json(alloc, tree)?;
        Ok(InternedClosureId(place))
    }
}

impl FromJson<JsonTypes> for ExprId {
    ghost reads = { expr_id_of };

    fn from_json(alloc: Global, tree: &Value) -> Result<ExprId, NotAWorld> {
        let place = u32::from_json(alloc, tree)?;
        Ok(ExprId(place))
    }
}

impl FromJson<JsonTypes> for PatId {
    ghost reads = { pat_id_of };

    fn from_json(alloc: Global, tree: &Value) -> Result<PatId, NotAWorld> {
        let place = u32::from_json(alloc, tree)?;
        Ok(PatId(place))
    }
}

impl FromJson<JsonTypes> for BindingId {
    ghost reads = { binding_id_of };

    fn from_json(alloc: Global, tree: &Value) -> Result<BindingId, NotAWorld> {
        let place = u32::from_json(alloc, tree)?;
        Ok(BindingId(place))
    }
}

impl FromJson<JsonTypes> for LabelId {
    ghost reads = { label_id_of };

    fn from_json(alloc: Global, tree: &Value) -> Result<LabelId, NotAWorld> {
        let place = u32::from_json(alloc, tree)?;
        Ok(LabelId(place))
    }
}

impl FromJson<JsonTypes> for AdtId {
    ghost reads = { adt_id_of };

    #[tactic(auto, unfolding(crate::specs::Ids::adt_id_of))]
    fn from_json(alloc: Global, tree: &Value) -> Result<AdtId, NotAWorld> {
        let variant = variant_of(alloc, tree)?;
        if let Some(part) = variant.payload(alloc, "StructId")? {
            return Ok(AdtId::StructId(part));
        }
        if let Some(part) = variant.payload(alloc, "UnionId")? {
            return Ok(AdtId::UnionId(part));
        }
        if let Some(part) = variant.payload(alloc, "EnumId")? {
            return Ok(AdtId::EnumId(part));
        }
        Err(here(alloc))
    }
}

impl FromJson<JsonTypes> for VariantId {
    ghost reads = { variant_id_of };

    #[tactic(auto, unfolding(crate::specs::Ids::variant_id_of))]
    fn from_json(alloc: Global, tree: &Value) -> Result<VariantId, NotAWorld> {
        let variant = variant_of(alloc, tree)?;
        if let Some(part) = variant.payload(alloc, "EnumVariantId")? {
            return Ok(VariantId::EnumVariantId(part));
        }
        if let Some(part) = variant.payload(alloc, "StructId")? {
            return Ok(VariantId::StructId(part));
        }
        if let Some(part) = variant.payload(alloc, "UnionId")? {
            return Ok(VariantId::UnionId(part));
        }
        Err(here(alloc))
    }
}

impl FromJson<JsonTypes> for CallableDefId {
    ghost reads = { callable_def_id_of };

    #[tactic(auto, unfolding(crate::specs::Ids::callable_def_id_of))]
    fn from_json(alloc: Global, tree: &Value) -> Result<CallableDefId, NotAWorld> {
        let variant = variant_of(alloc, tree)?;
        if let Some(part) = variant.payload(alloc, "FunctionId")? {
            return Ok(CallableDefId::FunctionId(part));
        }
        if let Some(part) = variant.payload(alloc, "StructId")? {
            return Ok(CallableDefId::StructId(part));
        }
        if let Some(part) = variant.payload(alloc, "EnumVariantId")? {
            return Ok(CallableDefId::EnumVariantId(part));
        }
        Err(here(alloc))
    }
}

impl FromJson<JsonTypes> for DefWithBodyId {
    ghost reads = { def_with_body_id_of };

    #[tactic(auto, unfolding(crate::specs::Ids::def_with_body_id_of))]
    fn from_json(alloc: Global, tree: &Value) -> Result<DefWithBodyId, NotAWorld> {
        let variant = variant_of(alloc, tree)?;
        if let Some(part) = variant.payload(alloc, "FunctionId")? {
            return Ok(DefWithBodyId::FunctionId(part));
        }
        if let Some(part) = variant.payload(alloc, "StaticId")? {
            return Ok(DefWithBodyId::StaticId(part));
        }
        if let Some(part) = variant.payload(alloc, "ConstId")? {
            return Ok(DefWithBodyId::ConstId(part));
        }
        if let Some(part) = variant.payload(alloc, "VariantId")? {
            return Ok(DefWithBodyId::VariantId(part));
        }
        Err(here(alloc))
    }
}

impl FromJson<JsonTypes> for GenericParamId {
    ghost reads = { generic_param_id_of };

    #[tactic(auto, unfolding(crate::specs::Ids::generic_param_id_of))]
    fn from_json(alloc: Global, tree: &Value) -> Result<GenericParamId, NotAWorld> {
        let variant = variant_of(alloc, tree)?;
        if let Some(part) = variant.payload(alloc, "TypeParamId")? {
            return Ok(GenericParamId::TypeParamId(part));
        }
        if let Some(part) = variant.payload(alloc, "ConstParamId")? {
            return Ok(GenericParamId::ConstParamId(part));
        }
        Err(here(alloc))
    }
}

impl FromJson<JsonTypes> for GeneralConstId {
    ghost reads = { general_const_id_of };

    #[tactic(auto, unfolding(crate::specs::Ids::general_const_id_of))]
    fn from_json(alloc: Global, tree: &Value) -> Result<GeneralConstId, NotAWorld> {
        let variant = variant_of(alloc, tree)?;
        if let Some(part) = variant.payload(alloc, "ConstId")? {
            return Ok(GeneralConstId::ConstId(part));
        }
        if let Some(part) = variant.payload(alloc, "StaticId")? {
            return Ok(GeneralConstId::StaticId(part));
        }
        Err(here(alloc))
    }
}

impl FromJson<JsonTypes> for FieldId {
    ghost reads = { field_id_of };

    #[tactic(auto, unfolding(crate::specs::Ids::field_id_of))]
    fn from_json(alloc: Global, tree: &Value) -> Result<FieldId, NotAWorld> {
        let members = members_of(alloc, tree)?;
        let parent = required(alloc, tree, "parent")?;
        let local_id = required(alloc, tree, "local_id")?;
        let value = FieldId { parent, local_id };
        let names = ["parent", "local_id"];
        with_no_other(alloc, members, &names, value)
    }
}

impl FromJson<JsonTypes> for TupleFieldId {
    ghost reads = { tuple_field_id_of };

    #[tactic(auto, unfolding(crate::specs::Ids::tuple_field_id_of))]
    fn from_json(alloc: Global, tree: &Value) -> Result<TupleFieldId, NotAWorld> {
        let members = members_of(alloc, tree)?;
        let tuple = required(alloc, tree, "tuple")?;
        let index = required(alloc, tree, "index")?;
        let value = TupleFieldId { tuple, index };
        let names = ["tuple", "index"];
        with_no_other(alloc, members, &names, value)
    }
}
