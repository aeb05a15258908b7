//! Refusals that say a text: of forms that aren't built yet, and of types that don't fit.

ghost use Rattle.std.specs.Prelude.{◌≡◌, ◌⊎◌, codes};
ghost use Rattle.mir.specs.declared.errors.MirLowerError.TheVariants as refusal;

use mir::MirLowerError;
use std::alloc::Global;
use world::Text;

/// The refusal of a form that isn't built yet.
pub fn form_not_built(alloc: Global) -> MirLowerError
    ensures { (result ≡ refusal.NotSupported (codes "form not built")) ⊎ (result ≡ refusal.NoMemory) }
{
    match Text::from_str(alloc, "form not built") {
        Ok(text) => MirLowerError::NotSupported(text),
        Err(error) => MirLowerError::from(error),
    }
}

/// The refusal of a type that doesn't fit.
pub fn type_error(alloc: Global, text: &str) -> MirLowerError
    ensures { (result ≡ refusal.TypeError text.now) ⊎ (result ≡ refusal.NoMemory) }
{
    match Text::from_str(alloc, text) {
        Ok(text) => MirLowerError::TypeError(text),
        Err(error) => MirLowerError::from(error),
    }
}
