//! Why aliases can't be left out of a type.

use types::NoMemory;

/// Why aliases can't be left out of a type.
#[derive(Clone, Copy)]
pub(crate) enum Unopened {
    /// An argument or a normalized type is missing.
    Missing,
    /// A normalized type stands past the places that a parameter can name, which have 32 bits.
    PastNumbers,
    NoMemory,
}

impl From<NoMemory> for Unopened {
    ghost use Rattle.std.specs.Prelude.{◌≡◌};
    ghost use Rattle.check_instances.specs.declared.unopened.Unopened.TheVariants as reason;

    ghost from_gives = { λ _ error. error ≡ reason.NoMemory };

    fn from(_error: NoMemory) -> Unopened {
        Unopened::NoMemory
    }
}
