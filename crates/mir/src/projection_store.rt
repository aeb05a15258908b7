//! A store of projections, which finds their ids by an ordered map.

ghost use Rattle.std.specs.Prelude.{◌≡◌, ◌↔◌, ◌∷◌, ◌++◌, [], Some, IfNone, IfOk, IfSome, IsTrue, OnErr};
ghost use Rattle.std.specs.BTreeMap.Comparable.{le_lt_trans};
ghost use Rattle.std.specs.Cmp.Lexicographic.{slice_cmp, lists_total};
ghost use Rattle.mir.specs.Projections.{AreInterned, HasId, HasNoId, HasRoom, Interns, empty_id, projection_of};
ghost use Rattle.mir.specs.ProjectionCodes.{interned_prop};

use crate::{Interner, PlaceElem, ProjectionId};
use std::alloc::Global;
use std::cmp::Ordering;
use std::collections::BTreeMap;
use std::collections::btree_map::Comparable;
use std::marker::Model;
use world::{List, NoMemory, TryClone};

/// The projections of a body, each under one id.
pub struct ProjectionStore {
    /// The projections, in the order of their ids.
    projections: Vec<List<PlaceElem>>,
    /// From each projection to its id.
    ids: BTreeMap<List<PlaceElem>, ProjectionId>,
    ghost law: { AreInterned projections.items } by { interned_prop projections.items },
}

impl Model for ProjectionStore {
    ghost use Rattle.std.specs.Prelude.{List};
    ghost use Rattle.mir.specs.Projections.{Interned};
    ghost use Rattle.mir.specs.ProjectionCodes.{interned_code};
    ghost use Rattle.mir.specs.ProjectionIds.{AreIds};

    ghost Value = { Interned };

    ghost coded = { interned_code };

    ghost view = { λ store. record { projections = store.projections.items; law = store.law } };

    ghost invariant = { λ store. AreIds store.projections.items store.ids.entries };
}

impl Drop for ProjectionStore {
    fn drop(self) {
        let ProjectionStore {
            projections: _projections,
            ids: _ids,
        } = self;
    }
}

/// A list to look up, where a map has it as a `List`.
#[derive_where(Clone, Copy)]
struct Sought<'a, T>(&'a [T]);

impl<'a, T: Ord> Comparable<List<T>> for Sought<'a, T> {
    ghost compare = { λ q k. slice_cmp T.cmp q.0.now k };

    ghost respects_cmp = { λ q x y. (lists_total T.total).congr q.0.now x y };

    ghost below_greater = { λ q x y. le_lt_trans (lists_total T.total) q.0.now x y };

    fn compare(&self, key: &List<T>) -> Ordering {
        self.0.cmp(&key.as_slice())
    }
}

impl ProjectionStore {
    /// A store of the empty projection alone, whose id is `ProjectionId::EMPTY`.
    pub fn new(alloc: Global) -> Result<ProjectionStore, NoMemory>
        ensures { IfOk result (λ store. store.projections ≡ [] ∷ []) }
    {
        let mut ids = BTreeMap::new(alloc);
        ids.insert(List::new(alloc), ProjectionId::EMPTY)?;
        let mut projections = Vec::new(alloc);
        projections.push(List::new(alloc))?;
        Ok(ProjectionStore { projections, ids })
    }

    /// The id of a projection: the one that it has, else the next one, which it gets. Every other projection keeps its
    /// id. Without memory it is `NoMemory`, and nothing changes.
    pub fn intern(&mut self, projection: List<PlaceElem>) -> Result<ProjectionId, NoMemory>
        requires { HasRoom self.old.projections }
        ensures ok { IfOk result (λ id. Interns self.old.projections self.new.projections projection id) }
        ensures err { OnErr result (self.new.projections ≡ self.old.projections) }
    {
        if let Some(id) = self.intern_if_exist(projection.as_slice()) {
            return Ok(id);
        }
        let id = ProjectionId(self.projections.len() as u32);
        let key = projection.try_clone(*self.projections.allocator())?;
        self.projections.reserve(1)?;
        self.ids.insert(key, id)?;
        self.projections.push(projection)?;
        Ok(id)
    }

    /// The id of a projection, if it has one. It takes no memory.
    pub fn intern_if_exist(&self, projection: &[PlaceElem]) -> Option<ProjectionId>
        ensures some { IfSome result (λ id. projection_of self.now.projections id ≡ Some projection.now) }
        ensures none { IfNone result (HasNoId self.now.projections projection.now) }
    {
        self.ids.get(Sought(projection)).copied()
    }

    /// Gives back memory that the store doesn't use. Every projection keeps its id.
    pub fn shrink_to_fit(&mut self)
        ensures { self.new ≡ self.old }
    {
        self.projections.shrink_to_fit();
    }
}

impl PartialEq for ProjectionStore {
    ghost use Rattle.std.specs.Cmp.{on_equiv, partial_equiv_from_equiv};
    ghost use Rattle.std.specs.Cmp.Lexicographic.{lists_equiv};
    ghost use Rattle.mir.specs.Elements.{elem_equiv};
    ghost use Rattle.mir.specs.ProjectionIds.{projections_of, same_projections};

    ghost eq = { same_projections };

    ghost laws = { partial_equiv_from_equiv (on_equiv projections_of (lists_equiv (lists_equiv elem_equiv))) };

    fn eq(&self, other: &ProjectionStore) -> bool {
        self.projections == other.projections
    }
}

impl Eq for ProjectionStore {
    ghost use Rattle.std.specs.Cmp.{on_equiv};
    ghost use Rattle.std.specs.Cmp.Lexicographic.{lists_equiv};
    ghost use Rattle.mir.specs.Elements.{elem_equiv};
    ghost use Rattle.mir.specs.ProjectionIds.{projections_of};

    ghost laws = { on_equiv projections_of (lists_equiv (lists_equiv elem_equiv)) };
}

impl TryClone for ProjectionStore {
    fn try_clone(&self, alloc: Global) -> Result<ProjectionStore, NoMemory> {
        let mut projections = Vec::new(alloc);
        let mut ids = BTreeMap::new(alloc);
        let all = self.projections.as_slice();
        for (i, projection) in all.iter().enumerate() {
            ids.insert(projection.try_clone(alloc)?, ProjectionId(i as u32))?;
            projections.push(projection.try_clone(alloc)?)?;
        }
        Ok(ProjectionStore { projections, ids })
    }
}

impl Interner for ProjectionStore {
    ghost projections = { λ store. store.projections };

    ghost interned = { λ store. store.law };

    fn intern(&mut self, projection: List<PlaceElem>) -> Result<ProjectionId, NoMemory> {
        ProjectionStore::intern(self, projection)
    }

    fn intern_if_exist(&self, projection: &[PlaceElem]) -> Option<ProjectionId> {
        ProjectionStore::intern_if_exist(self, projection)
    }

    fn has(&self, id: ProjectionId) -> bool {
        (id.0 as usize) < self.projections.len()
    }

    fn count(&self) -> u64 {
        self.projections.len() as u64
    }

    fn lookup_in(&self, id: ProjectionId) -> &[PlaceElem] {
        self.projections[id.0 as usize].as_slice()
    }

    fn project_in(
        &mut self,
        id: ProjectionId,
        projection: PlaceElem,
    ) -> Result<ProjectionId, NoMemory> {
        let mut longer = self.projections[id.0 as usize].try_clone(*self.projections.allocator())?;
        longer.push(projection)?;
        ProjectionStore::intern(self, longer)
    }
}

impl ProjectionId {
    /// The id of the empty projection, in every store.
    pub const EMPTY: ProjectionId = ProjectionId(0);

    /// Whether it is the id of the empty projection.
    pub fn is_empty(self) -> bool
        ensures { IsTrue result ↔ (self ≡ empty_id) }
    {
        self == ProjectionId::EMPTY
    }

    /// The projection that the id stands for in a store.
    pub fn lookup(self, store: &ProjectionStore) -> &[PlaceElem]
        requires { HasId store.now.projections self }
        ensures { projection_of store.now.projections self ≡ Some result.now }
    {
        store.lookup_in(self)
    }

    /// The id of the projection that the id stands for in a store with one more element at its end. Every other
    /// projection keeps its id. Without memory it is `NoMemory`, and nothing changes.
    pub fn project(
        self,
        projection: PlaceElem,
        store: &mut ProjectionStore,
    ) -> Result<ProjectionId, NoMemory>
        requires room { HasRoom store.old.projections }
        requires known { HasId store.old.projections self }
        ensures ok { IfOk result (λ made. IfSome (projection_of store.old.projections self) (λ base. Interns store.old.projections store.new.projections (base ++ projection ∷ []) made)) }
        ensures err { OnErr result (store.new.projections ≡ store.old.projections) }
    {
        store.project_in(self, projection)
    }
}
