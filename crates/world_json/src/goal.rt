//! Goals.

ghost use Rattle.world_json.specs.Goals.{limits_of, goal_of};

use crate::WorldJson;
use json_kit::{FromJson, NotAWorld, members_of, optional, required, with_no_other};
use serde_json::Value;
use std::alloc::Global;
use types::{DefWithBodyId, GenericArgs};
use world::Limits;

/// A definition to evaluate.
#[derive(PartialEq, Eq, Debug, Drop)]
pub struct Goal {
    pub def: DefWithBodyId,
    /// The generic arguments, the parent's first.
    pub args: GenericArgs,
    /// The limits of the evaluation; the default ones if there are none.
    pub limits: Option<Limits>,
}

impl FromJson<WorldJson> for Limits {
    ghost reads = { limits_of };

    #[tactic(auto, unfolding(crate::specs::Goals::limits_of))]
    fn from_json(alloc: Global, tree: &Value) -> Result<Limits, NotAWorld> {
        let members = members_of(alloc, tree)?;
        let blocks = required(alloc, tree, "blocks")?;
        let nesting = required(alloc, tree, "nesting")?;
        let bytes = required(alloc, tree, "bytes")?;
        let value = Limits {
            blocks,
            nesting,
            bytes,
        };
        let names = ["blocks", "nesting", "bytes"];
        with_no_other(alloc, members, &names, value)
    }
}

impl FromJson<WorldJson> for Goal {
    ghost reads = { goal_of };

    #[tactic(auto, unfolding(crate::specs::Goals::goal_of))]
    fn from_json(alloc: Global, tree: &Value) -> Result<Goal, NotAWorld> {
        let members = members_of(alloc, tree)?;
        let def = required(alloc, tree, "def")?;
        let args = optional(alloc, tree, "args")?;
        let limits = optional(alloc, tree, "limits")?;
        let value = Goal { def, args, limits };
        let names = ["def", "args", "limits"];
        with_no_other(alloc, members, &names, value)
    }
}
