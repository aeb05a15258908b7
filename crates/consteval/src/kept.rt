//! What is kept of finished evaluations, and for what.

ghost use Rattle.std.specs.Prelude.{◌≡◌};

use mir::MirBody;
use std::alloc::Global;
use std::rc::Rc;
use world::{Const, DefWithBodyId, NoMemory, Row};

/// What an answer is kept for.
#[derive(Clone, Copy, PartialEq, Eq, PartialOrd, Ord)]
pub(crate) enum Key {
    /// The lowered body of a definition.
    Lowered(DefWithBodyId),
    /// The value of a definition.
    Value(DefWithBodyId),
}

/// A kept answer, with what it is kept for. A lowered body is shared with the runs of it.
#[derive(Drop)]
pub(crate) enum Held {
    Lowered(DefWithBodyId, Rc<MirBody>),
    Value(DefWithBodyId, Const),
}

impl Row<Key> for Held {
    ghost use Rattle.consteval.specs.Kept.{entry_of, key_of};

    ghost key = { λ held. key_of (entry_of held) };

    fn key(&self, _alloc: Global) -> Result<Key, NoMemory> {
        match self {
            Held::Lowered(def, _) => Ok(Key::Lowered(*def)),
            Held::Value(def, _) => Ok(Key::Value(*def)),
        }
    }
}
