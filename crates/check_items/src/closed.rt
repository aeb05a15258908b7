//! Whether normalized types and resolved impl items have no alias and no generic parameter in them.

ghost use Rattle.std.specs.Prelude.{◌≡◌};
ghost use Rattle.check_items.specs.Closed.{is_const_impl_closed, is_impl_closed, is_normal_closed};

use check_names::{are_args_closed, is_ty_closed};
use world::{AliasId, ConstImplRow, GenericArgs, ImplRow, Ty};

/// Whether the normalized type of an alias has no alias and no generic parameter in it.
pub fn is_normal_closed(row: &(AliasId, GenericArgs, Ty)) -> bool
    ensures { result ≡ is_normal_closed row.now }
{
    is_ty_closed(&row.2)
}

/// Whether the generic arguments of a trait's function, and those of the impl's function that it resolves
/// to, have no alias and no generic parameter in them.
pub fn is_impl_closed(row: &ImplRow) -> bool
    ensures { result ≡ is_impl_closed row.now }
{
    are_args_closed(&row.args) && are_args_closed(&row.target_args)
}

/// Whether the generic arguments of a trait's constant, and those of the impl's constant that it resolves
/// to, have no alias and no generic parameter in them.
pub fn is_const_impl_closed(row: &ConstImplRow) -> bool
    ensures { result ≡ is_const_impl_closed row.now }
{
    are_args_closed(&row.args) && are_args_closed(&row.target_args)
}
