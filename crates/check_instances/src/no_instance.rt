//! Why there is no instance.

use types::NoMemory;

/// Why there is no instance.
#[derive(Clone, Copy)]
pub enum NoInstance {
    /// An argument or a normalized type is missing.
    Missing,
    NoMemory,
}

impl From<NoMemory> for NoInstance {
    ghost use Rattle.std.specs.Prelude.{◌≡◌};
    ghost use Rattle.check_instances.specs.declared.no_instance.NoInstance.TheVariants as reason;

    ghost from_gives = { λ _ error. error ≡ reason.NoMemory };

    fn from(_error: NoMemory) -> NoInstance {
        NoInstance::NoMemory
    }
}
