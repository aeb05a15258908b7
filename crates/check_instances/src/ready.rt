//! Types at generic arguments that needn't be made.
ghost use Rattle.std.specs.Prelude.{◌≡◌};
ghost use Rattle.std.specs.Option.{option_copied};
ghost use Rattle.check_instances.specs.Ready.{is_concrete, is_fixed, ready_instance};

use mentions::{Mention, MentionTest, all_in_ty};
use types::{GenericArg, GenericArgs, Ty};

/// No alias and no generic parameter.
#[derive(Drop)]
struct Fixed;

impl MentionTest for Fixed {
    ghost passes = { λ test mention. is_fixed mention };

    fn passes(&self, mention: Mention) -> bool {
        !matches!(
            mention,
            Mention::Alias(_) | Mention::TypeParam(_) | Mention::ConstParam(_)
        )
    }
}

/// Whether a type holds no alias and no generic parameter, at any depth, and so is the same at all generic arguments.
#[tactic(auto, unfolding(crate::specs::Ready::is_concrete))]
fn is_concrete(ty: &Ty) -> bool
    ensures { result ≡ is_concrete ty.now }
{
    all_in_ty(&Fixed, ty)
}

/// A type at generic arguments, where it needn't be made: one that holds no alias and no generic parameter is itself, and a
/// parameter is its argument. It takes no memory.
pub fn ready_instance<'a>(args: &'a GenericArgs, ty: &'a Ty) -> Option<&'a Ty>
    ensures { option_copied result ≡ ready_instance args.now ty.now }
{
    if is_concrete(ty) {
        return Some(ty);
    }
    match ty {
        Ty::Param(param) => match args.0.get(param.index as u64) {
            Some(GenericArg::Ty(argument)) => Some(argument),
            _ => None,
        },
        _ => None,
    }
}
