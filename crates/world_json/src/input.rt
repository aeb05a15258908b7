//! The whole input.

ghost use Rattle.std.specs.Prelude.{◌≡◌};
ghost use Rattle.serde_json.specs.View.{view};
ghost use Rattle.json_kit.specs.Fit.{Gives};
ghost use Rattle.world_json.specs.Input.{version_of, input_of, world_of, without_dot, IsAtRoot};

use crate::{Goal, WorldJson};
use json_kit::{FromJson, NotAWorld, here, members_of, optional, required, with_no_other};
use serde_json::Value;
use std::alloc::Global;
use world::{HirDatabase, List, Text};

/// The version of the input format, which has to be 1.
#[derive(Clone, Copy)]
pub(crate) struct Version;

impl FromJson<WorldJson> for Version {
    ghost reads = { version_of };

    fn from_json(alloc: Global, tree: &Value) -> Result<Version, NotAWorld> {
        let number = u64::from_json(alloc, tree)?;
        if number == 1 {
            Ok(Version)
        } else {
            Err(here(alloc))
        }
    }
}

/// The world and the goals of the input.
#[derive(Drop)]
pub(crate) struct Input {
    pub(crate) db: HirDatabase,
    pub(crate) goals: List<Goal>,
}

/// Reads the input. The path of an error begins with a dot where it begins with a key.
#[tactic(auto, unfolding(crate::specs::Input::input_of))]
fn read_input(alloc: Global, tree: &Value) -> Result<Input, NotAWorld>
    ensures { Gives result (input_of (view tree.now)) }
{
    let members = members_of(alloc, tree)?;
    let _version: Version = required(alloc, tree, "version")?;
    let db = required(alloc, tree, "world")?;
    let goals = optional(alloc, tree, "goals")?;
    let value = Input { db, goals };
    let names = ["version", "world", "goals"];
    with_no_other(alloc, members, &names, value)
}

/// A path without the dot before its first key.
#[tactic(auto, using(crate::proofs::Root::dot_stripped))]
fn without_dot(path: &str) -> &str
    ensures { result.now ≡ without_dot path.now }
{
    match path.strip_prefix('.') {
        Some(rest) => rest,
        None => path,
    }
}

/// The error with its path as it is printed: without the dot before its first key.
fn at_root(alloc: Global, fault: NotAWorld) -> NotAWorld
    ensures { IsAtRoot fault result }
{
    match fault {
        NotAWorld::At(path) => match Text::from_str(alloc, without_dot(path.as_str())) {
            Ok(path) => NotAWorld::At(path),
            Err(_) => NotAWorld::NoMemory,
        },
        NotAWorld::NoMemory => NotAWorld::NoMemory,
    }
}

/// Reads the world and the goals from a JSON tree. `At` has the path of the first part that doesn't fit, as
/// `world.consts[0].ty`: keys count in the order of the type's fields, with unknown keys behind the known
/// ones of their object. The path of the whole tree is empty.
pub fn read_world(alloc: Global, tree: &Value) -> Result<(HirDatabase, List<Goal>), NotAWorld>
    ensures { Gives result (world_of (view tree.now)) }
{
    match read_input(alloc, tree) {
        Ok(input) => Ok((input.db, input.goals)),
        Err(fault) => Err(at_root(alloc, fault)),
    }
}
