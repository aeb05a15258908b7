//! What lowering reads: a typed body in its world.

ghost use Rattle.source_meaning.specs.Source.{index_bases};
ghost use Rattle.body_forms.specs.Copies.{HasCopyTypes};
ghost use Rattle.body_forms.specs.Listed.{HasListed};

use std::alloc::Global;
use std::collections::BTreeSet;
use world::{Body, ExprId, HirDatabase, InferenceResult, Ty};

/// A typed body in its world, and the allocator for its graph.
#[derive(Drop)]
pub struct Context<'a> {
    pub alloc: Global,
    pub db: &'a HirDatabase,
    pub body: &'a Body,
    pub infer: &'a InferenceResult,
    /// The types that `infer` lists as `Copy`.
    pub copy_types: BTreeSet<Ty>,
    /// The calls that `infer` lists as diverging.
    pub diverging: BTreeSet<ExprId>,
    /// The operands of casts that `infer` lists as coercions.
    pub coercions: BTreeSet<ExprId>,
    /// The bases of the index expressions of `body`.
    pub bases: BTreeSet<ExprId>,
    ghost copies: { HasCopyTypes infer.now copy_types },
    ghost calls: { HasListed infer.now.diverging diverging },
    ghost casts: { HasListed infer.now.coercion_casts coercions },
    ghost indexed: { HasListed (index_bases body.now.exprs) bases },
}
