//! Tests of what is mentioned.

ghost use Rattle.std.specs.Prelude.{◌≡◌, Bool};

use crate::mention::Mention;

/// A test that is put to everything that a type or generic arguments mention.
pub trait MentionTest {
    ghost use Rattle.mentions.specs.declared.mention.Mention.{Mention};

    ghost passes: { Self → Mention → Bool };

    /// Whether a mention passes.
    fn passes(&self, mention: Mention) -> bool
        ensures { result ≡ passes self.now mention };
}
