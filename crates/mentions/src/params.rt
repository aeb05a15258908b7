//! Whether a type holds a generic parameter.

ghost use Rattle.std.specs.Prelude.{◌≡◌, Bool, not};
ghost use Rattle.mentions.specs.Mentions.{is_param, holds_param};

use crate::mention::Mention;
use crate::test::MentionTest;
use crate::walk::all_in_ty;
use types::Ty;

/// No generic parameter.
#[derive(Drop)]
struct NoParam;

impl MentionTest for NoParam {
    ghost passes = { λ test mention. not (is_param mention) };

    fn passes(&self, mention: Mention) -> bool {
        !matches!(mention, Mention::TypeParam(_) | Mention::ConstParam(_))
    }
}

/// Whether a type holds a generic parameter, of a type or of a constant, at any depth.
pub fn holds_param(ty: &Ty) -> bool
    ensures { result ≡ holds_param ty.now }
{
    !all_in_ty(&NoParam, ty)
}
