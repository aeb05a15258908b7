//! The checked world and the goals in the bytes of the input.

ghost use Rattle.std.specs.Prelude.{◌≡◌, IfOk, IfErr, OnOk, IsUtf8, position};
ghost use Rattle.serde_json.specs.Read.{read};
ghost use Rattle.serde_json.specs.View.{view};
ghost use Rattle.mirconst_input.specs.Goals.{are_within, is_misfit, is_variant};
ghost use Rattle.mirconst_input.specs.Input.{StandsFor, goal_path};
ghost use Rattle.mirconst_input.specs.Refusals.{IsOfInput, IsOfTree, IsOfCheck, IsOfFault, IsOfGoal};
ghost use Rattle.world_check.specs.Rows.{Holds};
ghost use Rattle.world_json.specs.Input.{world_of};

use crate::Status;
use serde_json::Value;
use std::alloc::Global;
use world::{DefWithBodyId, HirDatabase, Limits, List, NoMemory, Text};
use world_check::{CheckFault, CheckedWorld};
use world_json::{Goal, NotAWorld, read_world};

/// Parses bytes as JSON.
#[tactic(auto, using(crate::proofs::Refusing::no_json))]
fn tree(alloc: Global, bytes: &[u8]) -> Result<Value, Status>
    ensures utf8 { OnOk result (IsUtf8 bytes.now) }
    ensures json { IfOk result (λ tree. read bytes.now ≡ Some (view tree)) }
    ensures refused { IfErr result (λ status. IsOfInput bytes.now status) }
{
    Value::from_slice(alloc, bytes).map_err(|e| {
        if e.is_memory() {
            Status::NoMemory
        } else {
            Status::NotJson
        }
    })
}

/// Reads the world and the goals from a JSON tree, and drops the tree: it takes much more memory than
/// the world, which the check then has for itself.
fn world_and_goals(alloc: Global, tree: Value) -> Result<(HirDatabase, List<Goal>), Status>
    ensures stands { IfOk result (λ input. world_of (view tree) ≡ Ok input) }
    ensures refused { IfErr result (λ status. IsOfTree (view tree) status) }
{
    read_world(alloc, &tree).map_err(|fault| match fault {
        NotAWorld::At(path) => Status::NotAWorld(path),
        NotAWorld::NoMemory => Status::NoMemory,
    })
}

/// Checks the conditions on a world.
fn checked(alloc: Global, db: HirDatabase) -> Result<CheckedWorld, Status>
    ensures same { IfOk result (λ world. world ≡ db) }
    ensures holds { OnOk result (Holds db) }
    ensures refused { IfErr result (λ status. IsOfCheck db status) }
{
    match CheckedWorld::new(alloc, db) {
        Ok(world) => Ok(world),
        Err((_db, fault)) => Err(refused(fault)),
    }
}

/// The status of a world that fails the check of its conditions.
fn refused(fault: CheckFault) -> Status
    ensures { IsOfFault fault result }
{
    match fault {
        CheckFault::InvalidWorld(invalid) => Status::BadWorld(invalid),
        CheckFault::NoMemory => Status::NoMemory,
    }
}

/// Whether a definition is a variant of an enum, which can't be a goal.
fn is_variant(def: DefWithBodyId) -> bool
    ensures { result ≡ is_variant def }
{
    matches!(def, DefWithBodyId::VariantId(_))
}

/// Whether a goal's limits are left out, or at most the greatest ones that are allowed.
fn are_within(limits: Option<Limits>) -> bool
    ensures { result ≡ are_within limits }
{
    limits.is_none_or(|limits| limits.within())
}

/// Whether a goal is wrong in a world: its definition is a variant of an enum or out of range, an id in
/// its generic arguments is out of range, or its limits are too great.
fn is_misfit(world: &CheckedWorld, goal: &Goal) -> bool
    ensures { result ≡ is_misfit world.now goal.now }
{
    is_variant(goal.def)
        || !world.has(goal.def)
        || !world.has_args(&goal.args)
        || !are_within(goal.limits)
}

/// The index of the first wrong goal.
fn first_misfit(world: &CheckedWorld, goals: &[Goal]) -> Option<usize>
    ensures { result ≡ position (is_misfit world.now) goals.now }
{
    goals.iter().position(|goal| is_misfit(world, goal))
}

/// The index of the first goal that is wrong in the world: its definition is a variant of an enum or out
/// of range, an id in its generic arguments is out of range, or its limits are too great.
pub fn goals_fit(world: &CheckedWorld, goals: &List<Goal>) -> Option<u64>
    ensures { result ≡ position (is_misfit world.now) goals.now }
{
    first_misfit(world, goals.as_slice()).map(|i| i as u64)
}

/// The status of an input with a wrong goal.
fn misfit(alloc: Global, i: u64) -> Status
    ensures { IsOfGoal i result }
{
    misfit_path(alloc, i).map_or(Status::NoMemory, |path| Status::NotAWorld(path))
}

/// The path of a goal in the JSON of the input, as `goals[3]`.
fn misfit_path(alloc: Global, i: u64) -> Result<Text, NoMemory>
    ensures { IfOk result (λ path. path ≡ goal_path i) }
{
    let path = format!(in alloc; "goals[{i}]")?;
    Text::from_str(alloc, path.as_str())
}

/// The world and the goals in the bytes of the input, if the world passes the check of its conditions
/// and no goal is wrong.
#[tactic(auto, using(crate::proofs::Standing::stands_for, crate::proofs::Refusing::tree_refused, crate::proofs::Refusing::check_refused, crate::proofs::Refusing::goal_refused))]
pub fn checked_input(alloc: Global, bytes: &[u8]) -> Result<(CheckedWorld, List<Goal>), Status>
    ensures stands { IfOk result (λ input. StandsFor bytes.now input.0 input.1) }
    ensures refused { IfErr result (λ status. IsOfInput bytes.now status) }
{
    let tree = tree(alloc, bytes)?;
    let (db, goals) = world_and_goals(alloc, tree)?;
    let world = checked(alloc, db)?;
    match goals_fit(&world, &goals) {
        None => Ok((world, goals)),
        Some(i) => Err(misfit(alloc, i)),
    }
}
