//! The tables of the world.
ghost use Rattle.std.specs.Prelude.{◌≡◌, IfOk};
ghost use Rattle.world.specs.Empty.{empty_world};

use crate::{
    AliasId, Body, ClosureRow, ConstId, ConstImplRow, ConstParamRow, ConstRow, CrateRow, EnumRow,
    FunctionId, FunctionRow, GenericArgs, ImplRow, InferenceResult, Layout, List, NoMemory,
    StaticRow, StructRow, Table, Text, TryClone, Ty, VariantRow,
};
use std::alloc::Global;

/// The world: tables of items and bodies, whose rows are named by their places, tables of layouts, of
/// the types that aliases stand for and of the functions and constants that impls give, whose rows have
/// keys, and the functions that operators and calls stand for.
#[derive(PartialEq, Eq, PartialOrd, Ord, Hash)]
pub struct HirDatabase {
    pub crates: List<CrateRow>,
    pub functions: List<FunctionRow>,
    pub consts: List<ConstRow>,
    pub statics: List<StaticRow>,
    pub structs: List<StructRow>,
    pub unions: List<StructRow>,
    pub enums: List<EnumRow>,
    /// The variants of all enums.
    pub variants: List<VariantRow>,
    /// The names of the traits.
    pub traits: List<Text>,
    /// The names of the type aliases and associated types.
    pub aliases: List<Text>,
    /// The names of the type parameters.
    pub type_params: List<Text>,
    pub const_params: List<ConstParamRow>,
    pub closures: List<ClosureRow>,
    pub bodies: List<BodyRow>,
    pub layouts: Table<Ty, (Ty, Layout)>,
    /// What an alias stands for at some arguments.
    pub normals: Table<(AliasId, GenericArgs), (AliasId, GenericArgs, Ty)>,
    pub impls: Table<(FunctionId, GenericArgs), ImplRow>,
    pub const_impls: Table<(ConstId, GenericArgs), ConstImplRow>,
    /// `Drop::drop`.
    pub drop_fn: Option<FunctionId>,
    /// `Deref::deref`.
    pub deref_fn: Option<FunctionId>,
    /// `DerefMut::deref_mut`.
    pub deref_mut_fn: Option<FunctionId>,
    /// `Fn::call`.
    pub call_fn: Option<FunctionId>,
    /// `FnMut::call_mut`.
    pub call_mut_fn: Option<FunctionId>,
    /// `FnOnce::call_once`.
    pub call_once_fn: Option<FunctionId>,
}

impl Drop for HirDatabase {
    fn drop(self) {
        let HirDatabase {
            crates: _crates,
            functions: _functions,
            consts: _consts,
            statics: _statics,
            structs: _structs,
            unions: _unions,
            enums: _enums,
            variants: _variants,
            traits: _traits,
            aliases: _aliases,
            type_params: _type_params,
            const_params: _const_params,
            closures: _closures,
            bodies: _bodies,
            layouts: _layouts,
            normals: _normals,
            impls: _impls,
            const_impls: _const_impls,
            drop_fn: _drop_fn,
            deref_fn: _deref_fn,
            deref_mut_fn: _deref_mut_fn,
            call_fn: _call_fn,
            call_mut_fn: _call_mut_fn,
            call_once_fn: _call_once_fn,
        } = self;
    }
}

/// A body, and what inference found of it.
#[derive(PartialEq, Eq, PartialOrd, Ord, Hash)]
pub struct BodyRow {
    pub body: Body,
    pub infer: InferenceResult,
}

impl Drop for BodyRow {
    fn drop(self) {
        let BodyRow {
            body: _body,
            infer: _infer,
        } = self;
    }
}

impl HirDatabase {
    /// A world with no rows. It takes no memory.
    pub fn new(alloc: Global) -> HirDatabase
        ensures { result ≡ empty_world }
    {
        HirDatabase {
            crates: List::new(alloc),
            functions: List::new(alloc),
            consts: List::new(alloc),
            statics: List::new(alloc),
            structs: List::new(alloc),
            unions: List::new(alloc),
            enums: List::new(alloc),
            variants: List::new(alloc),
            traits: List::new(alloc),
            aliases: List::new(alloc),
            type_params: List::new(alloc),
            const_params: List::new(alloc),
            closures: List::new(alloc),
            bodies: List::new(alloc),
            layouts: Table::new(alloc),
            normals: Table::new(alloc),
            impls: Table::new(alloc),
            const_impls: Table::new(alloc),
            drop_fn: None,
            deref_fn: None,
            deref_mut_fn: None,
            call_fn: None,
            call_mut_fn: None,
            call_once_fn: None,
        }
    }

    /// Copies of the tables of crates, functions, constants and statics.
    fn copy_items(
        &self,
        alloc: Global,
    ) -> Result<
        (
            List<CrateRow>,
            List<FunctionRow>,
            List<ConstRow>,
            List<StaticRow>,
        ),
        NoMemory,
    >
        ensures { IfOk result (λ copy. copy ≡ (self.now.crates, self.now.functions, self.now.consts, self.now.statics)) }
    {
        let crates = self.crates.try_clone(alloc)?;
        let functions = self.functions.try_clone(alloc)?;
        let consts = self.consts.try_clone(alloc)?;
        let statics = self.statics.try_clone(alloc)?;
        Ok((crates, functions, consts, statics))
    }

    /// Copies of the tables of structs, unions, enums and variants.
    fn copy_adts(
        &self,
        alloc: Global,
    ) -> Result<
        (
            List<StructRow>,
            List<StructRow>,
            List<EnumRow>,
            List<VariantRow>,
        ),
        NoMemory,
    >
        ensures { IfOk result (λ copy. copy ≡ (self.now.structs, self.now.unions, self.now.enums, self.now.variants)) }
    {
        let structs = self.structs.try_clone(alloc)?;
        let unions = self.unions.try_clone(alloc)?;
        let enums = self.enums.try_clone(alloc)?;
        let variants = self.variants.try_clone(alloc)?;
        Ok((structs, unions, enums, variants))
    }

    /// Copies of the tables of traits, aliases and parameters.
    fn copy_names(
        &self,
        alloc: Global,
    ) -> Result<(List<Text>, List<Text>, List<Text>, List<ConstParamRow>), NoMemory>
        ensures { IfOk result (λ copy. copy ≡ (self.now.traits, self.now.aliases, self.now.type_params, self.now.const_params)) }
    {
        let traits = self.traits.try_clone(alloc)?;
        let aliases = self.aliases.try_clone(alloc)?;
        let type_params = self.type_params.try_clone(alloc)?;
        let const_params = self.const_params.try_clone(alloc)?;
        Ok((traits, aliases, type_params, const_params))
    }

    /// Copies of the tables of closures, bodies and layouts.
    fn copy_bodies(
        &self,
        alloc: Global,
    ) -> Result<(List<ClosureRow>, List<BodyRow>, Table<Ty, (Ty, Layout)>), NoMemory>
        ensures { IfOk result (λ copy. copy ≡ (self.now.closures, self.now.bodies, self.now.layouts)) }
    {
        let closures = self.closures.try_clone(alloc)?;
        let bodies = self.bodies.try_clone(alloc)?;
        let layouts = self.layouts.try_clone(alloc)?;
        Ok((closures, bodies, layouts))
    }

    /// Copies of the tables `normals`, `impls` and `const_impls`.
    fn copy_choices(
        &self,
        alloc: Global,
    ) -> Result<
        (
            Table<(AliasId, GenericArgs), (AliasId, GenericArgs, Ty)>,
            Table<(FunctionId, GenericArgs), ImplRow>,
            Table<(ConstId, GenericArgs), ConstImplRow>,
        ),
        NoMemory,
    >
        ensures { IfOk result (λ copy. copy ≡ (self.now.normals, self.now.impls, self.now.const_impls)) }
    {
        let normals = self.normals.try_clone(alloc)?;
        let impls = self.impls.try_clone(alloc)?;
        let const_impls = self.const_impls.try_clone(alloc)?;
        Ok((normals, impls, const_impls))
    }
}

impl TryClone for HirDatabase {
    fn try_clone(&self, alloc: Global) -> Result<HirDatabase, NoMemory> {
        let (crates, functions, consts, statics) = self.copy_items(alloc)?;
        let (structs, unions, enums, variants) = self.copy_adts(alloc)?;
        let (traits, aliases, type_params, const_params) = self.copy_names(alloc)?;
        let (closures, bodies, layouts) = self.copy_bodies(alloc)?;
        let (normals, impls, const_impls) = self.copy_choices(alloc)?;
        Ok(HirDatabase {
            crates,
            functions,
            consts,
            statics,
            structs,
            unions,
            enums,
            variants,
            traits,
            aliases,
            type_params,
            const_params,
            closures,
            bodies,
            layouts,
            normals,
            impls,
            const_impls,
            drop_fn: self.drop_fn,
            deref_fn: self.deref_fn,
            deref_mut_fn: self.deref_mut_fn,
            call_fn: self.call_fn,
            call_mut_fn: self.call_mut_fn,
            call_once_fn: self.call_once_fn,
        })
    }
}

impl TryClone for BodyRow {
    fn try_clone(&self, alloc: Global) -> Result<BodyRow, NoMemory> {
        Ok(BodyRow {
            body: self.body.try_clone(alloc)?,
            infer: self.infer.try_clone(alloc)?,
        })
    }
}
