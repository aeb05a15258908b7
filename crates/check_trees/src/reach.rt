//! The greatest id of the expressions inside each pattern of a body.
ghost use Rattle.std.specs.Prelude.{◌≡◌, ◌==◌, ◌&&◌, if◌then◌else◌, ℕ, List, [], ◌∷◌, length, nat_lt, slice_index_or, Decides, IfOk, OnOk};
ghost use Rattle.check_trees.specs.First.{Has};
ghost use Rattle.check_trees.specs.inner.Walks.{is_before, AreReaches, HaveReach};
ghost use Rattle.check_trees.specs.Tree.{inner_exprs_at, subpatterns_at, AreBelow, HasPath};

use crate::BodyNode;
use crate::nodes::{push_inner_exprs, push_subpatterns};
use std::alloc::Global;
use world::{Body, NoMemory};

/// The greatest id of some expressions; `Nothing` where there are none.
#[derive(Clone, Copy)]
pub(crate) enum Reach {
    Nothing,
    UpTo(u64),
}

impl Reach {
    /// Whether all these expressions have ids below `e`.
    pub(crate) fn is_before(self, e: u64) -> bool
        ensures { result ≡ is_before self e }
    {
        match self {
            Reach::Nothing => true,
            Reach::UpTo(last) => last < e,
        }
    }

    /// The greater of two.
    fn max(self, other: Reach) -> Reach
        ensures { (e : ℕ) → is_before result e ≡ (is_before self e && is_before other e) }
    {
        match (self, other) {
            (Reach::Nothing, _) => other,
            (_, Reach::Nothing) => self,
            (Reach::UpTo(a), Reach::UpTo(b)) => Reach::UpTo(a.max(b)),
        }
    }
}

/// The greatest ids inside the patterns that were walked already.
#[derive(Drop)]
pub(crate) struct Reaches {
    pats: Vec<Option<Reach>>,
}

/// Stores a reach at an index, if the index is in range.
fn keep_at(slots: &mut [Option<Reach>], place: u64, reach: Reach)
    ensures { (k : ℕ) → slice_index_or slots.new k None ≡ (if k == place && nat_lt place (length slots.old) then Some reach else slice_index_or slots.old k None) }
{
    let place = place as usize;
    if place < slots.len() {
        slots[place] = Some(reach);
    }
}

impl Reaches {
    /// An empty table for a body: no pattern was walked yet.
    pub(crate) fn new(alloc: Global, body: &Body) -> Result<Reaches, NoMemory>
        ensures { IfOk result (λ reaches. AreReaches body.now reaches) }
    {
        let pats = vec![in alloc; None; body.pats.len() as usize]?;
        Ok(Reaches { pats })
    }

    /// The reach of a pattern that was walked already.
    fn kept(&self, p: u64) -> Option<Reach>
        ensures { result ≡ slice_index_or self.now.pats.items p None }
    {
        let place = p as usize;
        if place < self.pats.len() {
            self.pats[place]
        } else {
            None
        }
    }

    /// Stores the reach of a pattern.
    fn keep(&mut self, body: &Body, p: u64, reach: Reach)
        requires kept { AreReaches body.now self.old }
        requires reach { HaveReach body.now (p ∷ []) reach }
        ensures { AreReaches body.now self.new }
    {
        let _ = body;
        keep_at(&mut self.pats, p, reach);
    }
}

/// The greatest of these ids.
fn reach_of_exprs(ids: &[u64]) -> Reach
    ensures { (e : ℕ) → Decides (is_before result e) (AreBelow ids.now e) }
{
    let mut reach = Reach::Nothing;
    for (i, id) in ids.iter().enumerate() {
        reach = reach.max(Reach::UpTo(*id));
    }
    reach
}

/// The direct subpatterns of a pattern; none if the body doesn't have the pattern.
fn subpatterns_at(alloc: Global, body: &Body, p: u64) -> Result<Vec<u64>, NoMemory>
    ensures { IfOk result (λ parts. parts.items ≡ subpatterns_at body.now p) }
{
    let mut parts = Vec::new(alloc);
    if let Some(pat) = body.pats.get(p) {
        push_subpatterns(&mut parts, pat)?;
    }
    Ok(parts)
}

/// The expressions that stand directly in a pattern; none if the body doesn't have the pattern.
fn inner_exprs_at(alloc: Global, body: &Body, p: u64) -> Result<Vec<u64>, NoMemory>
    ensures { IfOk result (λ inner. inner.items ≡ inner_exprs_at body.now p) }
{
    let mut inner = Vec::new(alloc);
    if let Some(pat) = body.pats.get(p) {
        push_inner_exprs(&mut inner, pat)?;
    }
    Ok(inner)
}

/// The greatest id of the expressions inside a pattern that no path of `budget` steps leads down from.
/// Each pattern is walked once.
#[cycle(reaches)]
fn reach_of_pat(
    alloc: Global,
    body: &Body,
    reaches: &mut Reaches,
    p: u64,
    budget: u64,
) -> Result<Reach, NoMemory>
    requires reaches { AreReaches body.now reaches.old }
    requires shallow { HasPath body.now budget (BodyNode.Pat p) → ⊥ }
    ensures reaches { OnOk result (AreReaches body.now reaches.new) }
    ensures reach { IfOk result (λ reach. HaveReach body.now (p ∷ []) reach) }
{
    if let Some(reach) = reaches.kept(p) {
        return Ok(reach);
    }
    let parts = subpatterns_at(alloc, body, p)?;
    let inner = inner_exprs_at(alloc, body, p)?;
    let below = reach_of_pats(alloc, body, reaches, parts.as_slice(), budget - 1)?;
    let reach = reach_of_exprs(inner.as_slice()).max(below);
    reaches.keep(body, p, reach);
    Ok(reach)
}

/// The greatest id of the expressions inside patterns that no path of `budget` steps leads down from.
#[cycle(reaches)]
pub(crate) fn reach_of_pats(
    alloc: Global,
    body: &Body,
    reaches: &mut Reaches,
    ids: &[u64],
    budget: u64,
) -> Result<Reach, NoMemory>
    requires reaches { AreReaches body.now reaches.old }
    requires shallow { (p : ℕ) → Has ids.now p → HasPath body.now budget (BodyNode.Pat p) → ⊥ }
    ensures reaches { OnOk result (AreReaches body.now reaches.new) }
    ensures reach { IfOk result (λ reach. HaveReach body.now ids.now reach) }
{
    let mut reach = Reach::Nothing;
    for (i, p) in ids.iter().enumerate() {
        let found = reach_of_pat(alloc, body, reaches, *p, budget)?;
        reach = reach.max(found);
    }
    Ok(reach)
}
