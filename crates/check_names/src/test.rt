//! Tests of the mentions in types and generic arguments: ids, aliases, parameters, errors and lengths.

ghost use Rattle.std.specs.Prelude.{◌≡◌, Bool};
ghost use Rattle.check_names.specs.Known.{is_known, is_named, is_closed, is_settled};

use crate::known::{is_known, is_named};
use mentions::{Mention, MentionTest};
use world::HirDatabase;

/// The mentioned id is in range.
#[derive(Drop)]
pub(crate) struct Known<'a> {
    pub(crate) db: &'a HirDatabase,
}

impl<'a> MentionTest for Known<'a> {
    ghost passes = { λ test mention. is_known test.db.now mention };

    fn passes(&self, mention: Mention) -> bool {
        is_known(self.db, mention)
    }
}

/// The mentioned id is in range, or the mentioned list is short enough for indices of 32 bits.
#[derive(Drop)]
pub(crate) struct Named<'a> {
    pub(crate) db: &'a HirDatabase,
}

impl<'a> MentionTest for Named<'a> {
    ghost passes = { λ test mention. is_named test.db.now mention };

    fn passes(&self, mention: Mention) -> bool {
        is_named(self.db, mention)
    }
}

/// The mention is no alias and no generic parameter.
#[derive(Drop)]
pub(crate) struct Closed;

impl MentionTest for Closed {
    ghost passes = { λ test mention. is_closed mention };

    fn passes(&self, mention: Mention) -> bool {
        !matches!(
            mention,
            Mention::Alias(_) | Mention::TypeParam(_) | Mention::ConstParam(_)
        )
    }
}

/// The mention is no generic parameter and no error.
#[derive(Drop)]
pub(crate) struct Settled;

impl MentionTest for Settled {
    ghost passes = { λ test mention. is_settled mention };

    fn passes(&self, mention: Mention) -> bool {
        !matches!(
            mention,
            Mention::TypeParam(_) | Mention::ConstParam(_) | Mention::Error
        )
    }
}
