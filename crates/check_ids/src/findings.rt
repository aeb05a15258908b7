//! The keys and values of the maps in an inference result, and whether their ids are in range.
ghost use Rattle.std.specs.Prelude.{◌≡◌};
ghost use Rattle.check_ids.specs.Inferred.{are_adjustments_named, is_assoc_named, is_candidate_known, is_field_named, is_method_named, is_value_known};
ghost use Rattle.check_names.specs.Known.{is_in_range, is_variant_known};

use check_names::{are_args_named, is_field_known, is_ty_named, is_variant_known};
use either::Either;
use world::{
    Adjustment, AssocRes, BindingMode, Body, CandidateId, ExprId, FieldId, HirDatabase, List,
    MethodRes, PatId, TupleFieldId, ValueNs, VariantId,
};

/// A key of a map in an inference result: an expression or a pattern.
pub(crate) trait NodeKey {
    ghost use Rattle.std.specs.Prelude.{Bool};
    ghost use Rattle.world.specs.declared.body.Body.{Body};

    ghost is_of: { Body → Self → Bool };

    /// Whether the body has the node.
    fn is_of(&self, body: &Body) -> bool
        ensures { result ≡ is_of body.now self.now };
}

impl NodeKey for ExprId {
    ghost is_of = { λ body id. is_in_range body.exprs id.0 };

    fn is_of(&self, body: &Body) -> bool {
        (self.0 as u64) < body.exprs.len()
    }
}

impl NodeKey for PatId {
    ghost is_of = { λ body id. is_in_range body.pats id.0 };

    fn is_of(&self, body: &Body) -> bool {
        (self.0 as u64) < body.pats.len()
    }
}

/// A value of a map in an inference result, as a node's adjustments or the resolution of its path.
pub(crate) trait Finding {
    ghost use Rattle.std.specs.Prelude.{Bool};
    ghost use Rattle.world.specs.declared.body.Body.{Body};
    ghost use Rattle.world.specs.declared.database.HirDatabase.{HirDatabase};

    ghost is_named: { HirDatabase → Body → Self → Bool };

    /// Whether all ids in it are in range in the world and the body.
    fn is_named(&self, db: &HirDatabase, body: &Body) -> bool
        ensures { result ≡ is_named db.now body.now self.now };
}

impl Finding for List<Adjustment> {
    ghost is_named = { λ world body steps. are_adjustments_named world steps };

    fn is_named(&self, db: &HirDatabase, _body: &Body) -> bool {
        let steps = self.as_slice();
        steps.iter().all(|step| is_ty_named(db, &step.target))
    }
}

/// A count of dereferences, which has no id.
impl Finding for u32 {
    ghost use Rattle.std.specs.Prelude.{true};

    ghost is_named = { λ world body count. true };

    fn is_named(&self, _db: &HirDatabase, _body: &Body) -> bool {
        true
    }
}

/// A binding mode, which has no id.
impl Finding for BindingMode {
    ghost use Rattle.std.specs.Prelude.{true};

    ghost is_named = { λ world body mode. true };

    fn is_named(&self, _db: &HirDatabase, _body: &Body) -> bool {
        true
    }
}

impl Finding for ValueNs {
    ghost is_named = { λ world body value. is_value_known world body value };

    fn is_named(&self, db: &HirDatabase, body: &Body) -> bool {
        match *self {
            ValueNs::LocalBinding(id) => (id.0 as u64) < body.bindings.len(),
            ValueNs::FunctionId(id) => (id.0 as u64) < db.functions.len(),
            ValueNs::ConstId(id) => (id.0 as u64) < db.consts.len(),
            ValueNs::StaticId(id) => (id.0 as u64) < db.statics.len(),
            ValueNs::StructId(id) => (id.0 as u64) < db.structs.len(),
            ValueNs::EnumVariantId(id) => (id.0 as u64) < db.variants.len(),
            ValueNs::GenericParam(id) => (id.0 as u64) < db.const_params.len(),
            ValueNs::ImplSelf => true,
        }
    }
}

/// Whether the id of an associated item is in range.
fn is_candidate_known(db: &HirDatabase, id: CandidateId) -> bool
    ensures { result ≡ is_candidate_known db.now id }
{
    match id {
        CandidateId::ConstId(id) => (id.0 as u64) < db.consts.len(),
        CandidateId::FunctionId(id) => (id.0 as u64) < db.functions.len(),
    }
}

impl Finding for AssocRes {
    ghost is_named = { λ world body found. is_assoc_named world found };

    fn is_named(&self, db: &HirDatabase, _body: &Body) -> bool {
        is_candidate_known(db, self.def) && are_args_named(db, &self.args)
    }
}

impl Finding for VariantId {
    ghost is_named = { λ world body variant. is_variant_known world variant };

    fn is_named(&self, db: &HirDatabase, _body: &Body) -> bool {
        is_variant_known(db, *self)
    }
}

impl Finding for Either<FieldId, TupleFieldId> {
    ghost is_named = { λ world body field. is_field_named world field };

    fn is_named(&self, db: &HirDatabase, _body: &Body) -> bool {
        match self {
            Either::Left(field) => is_field_known(db, *field),
            Either::Right(_) => true,
        }
    }
}

impl Finding for MethodRes {
    ghost is_named = { λ world body found. is_method_named world found };

    fn is_named(&self, db: &HirDatabase, _body: &Body) -> bool {
        (self.function.0 as u64) < db.functions.len() && are_args_named(db, &self.args)
    }
}
