//! Bodies that run, and callers that wait for them.

ghost use Rattle.std.proofs.Props.{props};
ghost use Rattle.std.specs.Prelude.{◌≡◌};
ghost use Rattle.std.specs.Coded.{codes};
ghost use Rattle.mir.specs.contracts.body.MirBody as lowered;
ghost use Rattle.mir.specs.contracts.errors.MirEvalError as failed;
ghost use Rattle.world.specs.contracts.database.HirDatabase as database;
ghost use Rattle.mir_rows.specs.Places.{HaveEnds};
ghost use Rattle.mir_eval.specs.Callees.{AreCallees};

use mir::{Answers, BasicBlockId, Interval, TrailEntry};
use mir_rows::{Callee, Code};
use std::alloc::Global;
use std::collections::BTreeMap;
use std::rc::Rc;
use world::{FunctionId, HirDatabase};

/// What a run goes by: its world, its limits, and what it was told.
pub(crate) struct Program<'a> {
    pub alloc: Global,
    pub db: &'a HirDatabase,
    /// How many levels of nesting it may take.
    pub nesting: u32,
    /// How many bytes the stack may take, and how many the heap.
    pub bytes: u64,
    pub answers: Answers,
    /// What can be entered of the functions that are given no generic arguments and whose bodies it was told.
    pub callees: BTreeMap<FunctionId, Option<Callee<'a>>>,
    ghost called: { AreCallees db.now answers callees.entries } by { Prim.hlevel (props, codes, database.the_row.coded, lowered.the_row.coded, failed.the_row.coded) },
}

impl Drop for Program<'_> {
    fn drop(self) {
        let Program {
            alloc: _alloc,
            db: _db,
            nesting: _nesting,
            bytes: _bytes,
            answers: _answers,
            callees: _callees,
        } = self;
    }
}

/// A caller that waits for its callee.
#[derive(Drop)]
pub(crate) struct Suspended<'a> {
    pub body: Rc<Code<'a>>,
    /// One for each local of the body.
    pub cells: Vec<Interval>,
    /// The block to go on in; none where the callee must not return.
    pub next: Option<BasicBlockId>,
    /// The call, as a fault's trail names it.
    pub call: TrailEntry,
    ghost ends: { HaveEnds cells.items },
}

/// A body that runs, what its run goes by, where each of its locals lies, and the callers that wait, the nearest last.
#[derive(Clone, Copy)]
pub(crate) struct StackFrame<'r, 'a> {
    pub program: &'r Program<'a>,
    pub body: &'r Code<'a>,
    pub cells: &'r [Interval],
    pub below: &'r [Suspended<'a>],
    ghost ends: { HaveEnds cells.now },
    ghost world: { body.now.world ≡ program.now.db.now } by { Prim.hlevel (props, codes, database.the_row.coded) },
}

/// A point of a run: about to enter a block, or at the call that ends a block.
#[derive(Clone, Copy)]
pub(crate) enum Point {
    Entry(BasicBlockId),
    AtCall(BasicBlockId),
}
