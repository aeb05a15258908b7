//! What type inference found of a body.
ghost use Rattle.std.specs.Prelude.{◌≡◌, IfOk};
ghost use Rattle.world.specs.Empty.{empty_infer};

use crate::{
    Adjustment, BindingId, ConstId, ConstParamId, EnumVariantId, ExprId, FieldId, FunctionId,
    GenericArgs, List, Map, Mutability, NoMemory, PatId, StaticId, StructId, TryClone,
    TupleFieldId, Ty, VariantId,
};
use either::Either;
use std::alloc::Global;

/// The types of a body's nodes, and what its paths and names stand for.
#[derive(PartialEq, Eq, PartialOrd, Ord, Hash)]
pub struct InferenceResult {
    /// One for each expression.
    pub expr_types: List<Ty>,
    /// One for each pattern.
    pub pat_types: List<Ty>,
    /// One for each binding.
    pub binding_types: List<Ty>,
    pub expr_adjustments: Map<ExprId, List<Adjustment>>,
    /// How many dereferences a pattern's value takes first.
    pub pat_adjustments: Map<PatId, u32>,
    pub value_res: Map<ExprId, ValueNs>,
    pub pat_value_res: Map<PatId, ValueNs>,
    pub assoc_res: Map<ExprId, AssocRes>,
    pub pat_assoc_res: Map<PatId, AssocRes>,
    pub variant_res: Map<ExprId, VariantId>,
    pub pat_variant_res: Map<PatId, VariantId>,
    pub field_res: Map<ExprId, Either<FieldId, TupleFieldId>>,
    pub method_res: Map<ExprId, MethodRes>,
    pub binding_modes: Map<PatId, BindingMode>,
    /// The operands of casts that are coercions.
    pub coercion_casts: List<ExprId>,
    /// The calls that do not return.
    pub diverging: List<ExprId>,
    /// The types of this body that are `Copy`.
    pub copy_types: List<Ty>,
    /// Whether inference met an error.
    pub erroneous: bool,
    /// The expressions whose types don't fit.
    pub mismatches: List<ExprId>,
}

impl Drop for InferenceResult {
    fn drop(self) {
        let InferenceResult {
            expr_types: _expr_types,
            pat_types: _pat_types,
            binding_types: _binding_types,
            expr_adjustments: _expr_adjustments,
            pat_adjustments: _pat_adjustments,
            value_res: _value_res,
            pat_value_res: _pat_value_res,
            assoc_res: _assoc_res,
            pat_assoc_res: _pat_assoc_res,
            variant_res: _variant_res,
            pat_variant_res: _pat_variant_res,
            field_res: _field_res,
            method_res: _method_res,
            binding_modes: _binding_modes,
            coercion_casts: _coercion_casts,
            diverging: _diverging,
            copy_types: _copy_types,
            erroneous: _erroneous,
            mismatches: _mismatches,
        } = self;
    }
}

/// An associated item that a path names.
#[derive(PartialEq, Eq, PartialOrd, Ord, Hash)]
pub struct AssocRes {
    pub def: CandidateId,
    pub args: GenericArgs,
}

impl Drop for AssocRes {
    fn drop(self) {
        let AssocRes {
            def: _def,
            args: _args,
        } = self;
    }
}

/// An item that a trait or an impl can hold.
#[derive(Clone, Copy, PartialEq, Eq, PartialOrd, Ord, Hash)]
pub enum CandidateId {
    ConstId(ConstId),
    FunctionId(FunctionId),
}

/// The function that a method call, or an operator, stands for.
#[derive(PartialEq, Eq, PartialOrd, Ord, Hash)]
pub struct MethodRes {
    pub function: FunctionId,
    pub args: GenericArgs,
}

impl Drop for MethodRes {
    fn drop(self) {
        let MethodRes {
            function: _function,
            args: _args,
        } = self;
    }
}

/// What a path of a body names.
#[derive(Clone, Copy, PartialEq, Eq, PartialOrd, Ord, Hash)]
pub enum ValueNs {
    LocalBinding(BindingId),
    FunctionId(FunctionId),
    ConstId(ConstId),
    StaticId(StaticId),
    StructId(StructId),
    EnumVariantId(EnumVariantId),
    GenericParam(ConstParamId),
    ImplSelf,
}

/// How a name pattern binds.
#[derive(Clone, Copy, PartialEq, Eq, PartialOrd, Ord, Hash)]
pub enum BindingMode {
    Move,
    Ref(Mutability),
}

impl InferenceResult {
    /// What inference found of no nodes. It takes no memory.
    pub fn new(alloc: Global) -> InferenceResult
        ensures { result ≡ empty_infer }
    {
        InferenceResult {
            expr_types: List::new(alloc),
            pat_types: List::new(alloc),
            binding_types: List::new(alloc),
            expr_adjustments: Map::new(alloc),
            pat_adjustments: Map::new(alloc),
            value_res: Map::new(alloc),
            pat_value_res: Map::new(alloc),
            assoc_res: Map::new(alloc),
            pat_assoc_res: Map::new(alloc),
            variant_res: Map::new(alloc),
            pat_variant_res: Map::new(alloc),
            field_res: Map::new(alloc),
            method_res: Map::new(alloc),
            binding_modes: Map::new(alloc),
            coercion_casts: List::new(alloc),
            diverging: List::new(alloc),
            copy_types: List::new(alloc),
            erroneous: false,
            mismatches: List::new(alloc),
        }
    }

    /// Copies of the types of nodes.
    fn copy_node_types(&self, alloc: Global) -> Result<(List<Ty>, List<Ty>, List<Ty>), NoMemory>
        ensures { IfOk result (λ copy. copy ≡ (self.now.expr_types, self.now.pat_types, self.now.binding_types)) }
    {
        let expr_types = self.expr_types.try_clone(alloc)?;
        let pat_types = self.pat_types.try_clone(alloc)?;
        let binding_types = self.binding_types.try_clone(alloc)?;
        Ok((expr_types, pat_types, binding_types))
    }

    /// Copies of what is done to values before they are used.
    fn copy_adjustments(
        &self,
        alloc: Global,
    ) -> Result<
        (
            Map<ExprId, List<Adjustment>>,
            Map<PatId, u32>,
            Map<PatId, BindingMode>,
        ),
        NoMemory,
    >
        ensures { IfOk result (λ copy. copy ≡ (self.now.expr_adjustments, self.now.pat_adjustments, self.now.binding_modes)) }
    {
        let expr_adjustments = self.expr_adjustments.try_clone(alloc)?;
        let pat_adjustments = self.pat_adjustments.try_clone(alloc)?;
        let binding_modes = self.binding_modes.try_clone(alloc)?;
        Ok((expr_adjustments, pat_adjustments, binding_modes))
    }

    /// Copies of what paths name.
    fn copy_values(
        &self,
        alloc: Global,
    ) -> Result<
        (
            Map<ExprId, ValueNs>,
            Map<PatId, ValueNs>,
            Map<ExprId, AssocRes>,
            Map<PatId, AssocRes>,
        ),
        NoMemory,
    >
        ensures { IfOk result (λ copy. copy ≡ (self.now.value_res, self.now.pat_value_res, self.now.assoc_res, self.now.pat_assoc_res)) }
    {
        let value_res = self.value_res.try_clone(alloc)?;
        let pat_value_res = self.pat_value_res.try_clone(alloc)?;
        let assoc_res = self.assoc_res.try_clone(alloc)?;
        let pat_assoc_res = self.pat_assoc_res.try_clone(alloc)?;
        Ok((value_res, pat_value_res, assoc_res, pat_assoc_res))
    }

    /// Copies of what names of variants, fields and methods stand for.
    fn copy_members(
        &self,
        alloc: Global,
    ) -> Result<
        (
            Map<ExprId, VariantId>,
            Map<PatId, VariantId>,
            Map<ExprId, Either<FieldId, TupleFieldId>>,
            Map<ExprId, MethodRes>,
        ),
        NoMemory,
    >
        ensures { IfOk result (λ copy. copy ≡ (self.now.variant_res, self.now.pat_variant_res, self.now.field_res, self.now.method_res)) }
    {
        let variant_res = self.variant_res.try_clone(alloc)?;
        let pat_variant_res = self.pat_variant_res.try_clone(alloc)?;
        let field_res = self.field_res.try_clone(alloc)?;
        let method_res = self.method_res.try_clone(alloc)?;
        Ok((variant_res, pat_variant_res, field_res, method_res))
    }

    /// Copies of the lists of marked nodes and types.
    fn copy_marks(
        &self,
        alloc: Global,
    ) -> Result<(List<ExprId>, List<ExprId>, List<Ty>, List<ExprId>), NoMemory>
        ensures { IfOk result (λ copy. copy ≡ (self.now.coercion_casts, self.now.diverging, self.now.copy_types, self.now.mismatches)) }
    {
        let coercion_casts = self.coercion_casts.try_clone(alloc)?;
        let diverging = self.diverging.try_clone(alloc)?;
        let copy_types = self.copy_types.try_clone(alloc)?;
        let mismatches = self.mismatches.try_clone(alloc)?;
        Ok((coercion_casts, diverging, copy_types, mismatches))
    }
}

impl TryClone for InferenceResult {
    fn try_clone(&self, alloc: Global) -> Result<InferenceResult, NoMemory> {
        let (expr_types, pat_types, binding_types) = self.copy_node_types(alloc)?;
        let (expr_adjustments, pat_adjustments, binding_modes) = self.copy_adjustments(alloc)?;
        let (value_res, pat_value_res, assoc_res, pat_assoc_res) = self.copy_values(alloc)?;
        let (variant_res, pat_variant_res, field_res, method_res) = self.copy_members(alloc)?;
        let (coercion_casts, diverging, copy_types, mismatches) = self.copy_marks(alloc)?;
        Ok(InferenceResult {
            expr_types,
            pat_types,
            binding_types,
            expr_adjustments,
            pat_adjustments,
            value_res,
            pat_value_res,
            assoc_res,
            pat_assoc_res,
            variant_res,
            pat_variant_res,
            field_res,
            method_res,
            binding_modes,
            coercion_casts,
            diverging,
            copy_types,
            erroneous: self.erroneous,
            mismatches,
        })
    }
}

impl TryClone for AssocRes {
    fn try_clone(&self, alloc: Global) -> Result<AssocRes, NoMemory> {
        Ok(AssocRes {
            def: self.def,
            args: self.args.try_clone(alloc)?,
        })
    }
}

impl TryClone for CandidateId {
    fn try_clone(&self, _alloc: Global) -> Result<CandidateId, NoMemory> {
        Ok(*self)
    }
}

impl TryClone for MethodRes {
    fn try_clone(&self, alloc: Global) -> Result<MethodRes, NoMemory> {
        Ok(MethodRes {
            function: self.function,
            args: self.args.try_clone(alloc)?,
        })
    }
}

impl TryClone for ValueNs {
    fn try_clone(&self, _alloc: Global) -> Result<ValueNs, NoMemory> {
        Ok(*self)
    }
}

impl TryClone for BindingMode {
    fn try_clone(&self, _alloc: Global) -> Result<BindingMode, NoMemory> {
        Ok(*self)
    }
}
