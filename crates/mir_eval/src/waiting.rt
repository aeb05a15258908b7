//! The callers that wait for the body that runs, the nearest last.

ghost use Rattle.std.specs.Prelude.{◌≡◌, ◌↔◌, ◌<◌, ◌∷◌, ◌++◌, [], if◌then◌else◌, is_ok, length, IfSome, IsSome};
ghost use Rattle.std.specs.Option.{option_to_list};
ghost use Rattle.mir_eval.specs.Frames.{AreOfWorld};

use crate::frames::{Program, Suspended};
use world::NoMemory;

impl<'a> Program<'a> {
    /// Takes off the nearest of the callers that wait.
    pub(crate) fn pop_caller(&self, below: &mut Vec<Suspended<'a>>) -> Option<Suspended<'a>>
        requires { AreOfWorld self.now.db.now below.old.items }
        ensures items { below.old.items ≡ below.new.items ++ option_to_list result }
        ensures variant { IsSome result ↔ (0 < length below.old.items) }
        ensures world { IfSome result (λ caller. caller.body.value.world ≡ self.now.db.now) }
        ensures others { AreOfWorld self.now.db.now below.new.items }
    {
        below.pop()
    }

    /// Puts a caller before those that wait, as the nearest.
    pub(crate) fn push_caller(
        &self,
        below: &mut Vec<Suspended<'a>>,
        caller: Suspended<'a>,
    ) -> Result<(), NoMemory>
        requires others { AreOfWorld self.now.db.now below.old.items }
        requires world { caller.body.value.world ≡ self.now.db.now }
        ensures items { below.new.items ≡ (if is_ok result then below.old.items ++ caller.entry ∷ [] else below.old.items) }
        ensures worlds { AreOfWorld self.now.db.now below.new.items }
    {
        match below.push(caller) {
            Ok(()) => Ok(()),
            Err(_) => Err(NoMemory),
        }
    }
}
