//! What keeps projections, each under one id.

ghost use Rattle.std.specs.Prelude.{◌≡◌, ◌↔◌, ◌∷◌, ◌++◌, [], List, Some, length, IfNone, IfOk, IfSome, IsTrue, OnErr};
ghost use Rattle.mir.specs.Projections.{AreInterned, HasId, HasNoId, HasRoom, Interns, Projection, projection_of};

use crate::{PlaceElem, ProjectionId};
use world::{List, NoMemory};

/// What keeps projections. Each has one id, and each id stands for one projection for good.
pub trait Interner {
    // The projections, in the order of their ids.
    ghost projections: { Self → List Projection };

    /// The id of a projection: the one that it has, else the next one, which it gets.
    fn intern(&mut self, projection: List<PlaceElem>) -> Result<ProjectionId, NoMemory>
        requires { HasRoom (projections self.old) }
        ensures ok { IfOk result (λ id. Interns (projections self.old) (projections self.new) projection id) }
        ensures err { OnErr result (projections self.new ≡ projections self.old) };

    /// The id of a projection, if it has one.
    fn intern_if_exist(&self, projection: &[PlaceElem]) -> Option<ProjectionId>
        ensures some { IfSome result (λ id. projection_of (projections self.now) id ≡ Some projection.now) }
        ensures none { IfNone result (HasNoId (projections self.now) projection.now) };

    /// Whether the id stands for a projection.
    fn has(&self, id: ProjectionId) -> bool
        ensures { IsTrue result ↔ HasId (projections self.now) id };

    /// How many projections there are.
    fn count(&self) -> u64
        ensures { result ≡ length (projections self.now) };

    /// The projection that an id stands for.
    fn lookup_in(&self, id: ProjectionId) -> &[PlaceElem]
        requires { HasId (projections self.now) id }
        ensures { projection_of (projections self.now) id ≡ Some result.now };

    /// The id of the projection that an id stands for with one more element at its end.
    fn project_in(
        &mut self,
        id: ProjectionId,
        projection: PlaceElem,
    ) -> Result<ProjectionId, NoMemory>
        requires room { HasRoom (projections self.old) }
        requires known { HasId (projections self.old) id }
        ensures ok { IfOk result (λ made. IfSome (projection_of (projections self.old) id) (λ base. Interns (projections self.old) (projections self.new) (base ++ projection ∷ []) made)) }
        ensures err { OnErr result (projections self.new ≡ projections self.old) };

    // Ids and projections are in bijection, and the empty projection has the id 0.
    ghost interned: { (interner : Self) → AreInterned (projections interner) };
}
