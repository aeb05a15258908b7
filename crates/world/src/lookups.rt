//! What the tables hold at a name. No look-up takes memory.
ghost use Rattle.std.specs.Prelude.{◌≡◌};
ghost use Rattle.std.specs.Option.{option_and_then, option_copied, option_map};
ghost use Rattle.types.specs.declared.ids.ConstId.{ConstId as ConstName};
ghost use Rattle.types.specs.declared.ids.FunctionId.{FunctionId as FunctionName};
ghost use Rattle.types.specs.declared.ty.GenericArgs.{GenericArgs as Args};
ghost use Rattle.world.specs.Lookups.{body_place, body_row, const_impl_row, crate_of, enum_row, fields_of, function_row, impl_row, layout_of, normal_row};

use crate::{
    AliasId, Body, BodyRow, ConstId, Crate, DefWithBodyId, EnumId, EnumVariantId, FieldRow, FnSig,
    FunctionId, GenericArgs, HirDatabase, InferenceResult, ItemKey, Layout, List, Special, Ty,
    VariantId,
};

impl HirDatabase {
    /// The place of the body of what has one.
    fn body_place(&self, def: DefWithBodyId) -> Option<u32>
        ensures { result ≡ body_place self.now def }
    {
        match def {
            DefWithBodyId::FunctionId(id) => match self.functions.get(id.0 as u64) {
                Some(row) => row.body,
                None => None,
            },
            DefWithBodyId::StaticId(id) => match self.statics.get(id.0 as u64) {
                Some(row) => row.body,
                None => None,
            },
            DefWithBodyId::ConstId(id) => match self.consts.get(id.0 as u64) {
                Some(row) => row.body,
                None => None,
            },
            DefWithBodyId::VariantId(id) => match self.variants.get(id.0 as u64) {
                Some(row) => row.body,
                None => None,
            },
        }
    }

    /// The row of the body of what has one.
    fn body_row(&self, def: DefWithBodyId) -> Option<&BodyRow>
        ensures { option_copied result ≡ body_row self.now def }
    {
        match self.body_place(def) {
            Some(place) => self.bodies.get(place as u64),
            None => None,
        }
    }

    /// The body of what has one.
    pub fn body(&self, def: DefWithBodyId) -> Option<&Body>
        ensures { option_copied result ≡ option_map (λ row. row.body) (body_row self.now def) }
    {
        match self.body_row(def) {
            Some(row) => Some(&row.body),
            None => None,
        }
    }

    /// What inference found of the body of what has one.
    pub fn infer(&self, def: DefWithBodyId) -> Option<&InferenceResult>
        ensures { option_copied result ≡ option_map (λ row. row.infer) (body_row self.now def) }
    {
        match self.body_row(def) {
            Some(row) => Some(&row.infer),
            None => None,
        }
    }

    /// The crate of what can have a body, where the world has a row of it.
    pub fn crate_of(&self, def: DefWithBodyId) -> Option<Crate>
        ensures { result ≡ crate_of self.now def }
    {
        match def {
            DefWithBodyId::FunctionId(id) => match self.functions.get(id.0 as u64) {
                Some(row) => Some(row.krate),
                None => None,
            },
            DefWithBodyId::StaticId(id) => match self.statics.get(id.0 as u64) {
                Some(row) => Some(row.krate),
                None => None,
            },
            DefWithBodyId::ConstId(id) => match self.consts.get(id.0 as u64) {
                Some(row) => Some(row.krate),
                None => None,
            },
            DefWithBodyId::VariantId(id) => match self.variants.get(id.0 as u64) {
                Some(row) => Some(row.krate),
                None => None,
            },
        }
    }

    /// The layout of a type: that of the first row with the type.
    pub fn layout_of(&self, ty: &Ty) -> Option<&Layout>
        ensures { option_copied result ≡ layout_of self.now ty.now }
    {
        match self.layouts.get(ty) {
            Some(row) => Some(&row.1),
            None => None,
        }
    }

    /// The type that an alias stands for at some arguments, by the first row with them.
    pub fn normal_of(&self, id: AliasId, args: &GenericArgs) -> Option<&Ty>
        ensures { option_copied result ≡ option_map (λ row. row.2) (normal_row self.now id args.now) }
    {
        match self.normals.get(ItemKey { id, args }) {
            Some(row) => Some(&row.2),
            None => None,
        }
    }

    /// The function, with its arguments, that a trait's function stands for at some arguments, by
    /// the first row with them.
    pub fn impl_of(&self, f: FunctionId, args: &GenericArgs) -> Option<(FunctionId, &GenericArgs)>
        ensures { option_map {U = FunctionName × Args} (λ found. (found.0, found.1.now)) result ≡ option_map (λ row. (row.target, row.target_args)) (impl_row self.now f args.now) }
    {
        match self.impls.get(ItemKey { id: f, args }) {
            Some(row) => Some((row.target, &row.target_args)),
            None => None,
        }
    }

    /// The constant, with its arguments, that a trait's constant stands for at some arguments, by
    /// the first row with them.
    pub fn impl_const_of(&self, c: ConstId, args: &GenericArgs) -> Option<(ConstId, &GenericArgs)>
        ensures { option_map {U = ConstName × Args} (λ found. (found.0, found.1.now)) result ≡ option_map (λ row. (row.target, row.target_args)) (const_impl_row self.now c args.now) }
    {
        match self.const_impls.get(ItemKey { id: c, args }) {
            Some(row) => Some((row.target, &row.target_args)),
            None => None,
        }
    }

    /// The types of a function's parameters and result.
    pub fn sig_of(&self, f: FunctionId) -> Option<&FnSig>
        ensures { option_copied result ≡ option_map (λ row. row.sig) (function_row self.now f) }
    {
        match self.functions.get(f.0 as u64) {
            Some(row) => Some(&row.sig),
            None => None,
        }
    }

    /// The fields of a variant, struct or union.
    pub fn field_types(&self, v: VariantId) -> Option<&List<FieldRow>>
        ensures { option_copied result ≡ fields_of self.now v }
    {
        match v {
            VariantId::EnumVariantId(id) => match self.variants.get(id.0 as u64) {
                Some(row) => Some(&row.fields),
                None => None,
            },
            VariantId::StructId(id) => match self.structs.get(id.0 as u64) {
                Some(row) => Some(&row.fields),
                None => None,
            },
            VariantId::UnionId(id) => match self.unions.get(id.0 as u64) {
                Some(row) => Some(&row.fields),
                None => None,
            },
        }
    }

    /// The variants of an enum, in order.
    pub fn variants(&self, e: EnumId) -> Option<&List<EnumVariantId>>
        ensures { option_copied result ≡ option_map (λ row. row.variants) (enum_row self.now e) }
    {
        match self.enums.get(e.0 as u64) {
            Some(row) => Some(&row.variants),
            None => None,
        }
    }

    /// What the machine does in place of running a function's body, where it does.
    pub fn is_special(&self, f: FunctionId) -> Option<&Special>
        ensures { option_copied result ≡ option_and_then (λ row. row.special) (function_row self.now f) }
    {
        match self.functions.get(f.0 as u64) {
            Some(row) => row.special.as_ref(),
            None => None,
        }
    }
}
