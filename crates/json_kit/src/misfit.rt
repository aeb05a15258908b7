//! The error of reading a JSON tree.

ghost use Rattle.std.specs.Prelude.{◌≡◌, [], Some};
ghost use Rattle.json_kit.specs.declared.misfit.NotAWorld.TheVariants.{NoMemory as no_memory};

use std::alloc::{AllocError, Global};
use types::{NoMemory, Text};

/// Why a JSON tree is no world with goals.
#[derive(PartialEq, Eq, Debug, Drop)]
pub enum NotAWorld {
    /// The path of the first part that doesn't fit, as `world.consts[0].ty`.
    At(Text),
    /// There was no memory.
    NoMemory,
}

impl From<NoMemory> for NotAWorld {
    ghost from_gives = { λ _ fault. fault ≡ no_memory };

    fn from(_error: NoMemory) -> NotAWorld {
        NotAWorld::NoMemory
    }
}

impl From<AllocError> for NotAWorld {
    ghost from_gives = { λ _ fault. fault ≡ no_memory };

    fn from(_error: AllocError) -> NotAWorld {
        NotAWorld::NoMemory
    }
}
