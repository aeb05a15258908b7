//! Whether all ids in the rows of normalized types and resolved impl items are in range.

ghost use Rattle.std.specs.Prelude.{◌≡◌};
ghost use Rattle.check_items.specs.Names.{is_const_impl_named, is_impl_named, is_normal_named};

use crate::parts::is_in_range;
use check_names::{are_args_named, is_ty_named};
use world::{AliasId, ConstImplRow, GenericArgs, HirDatabase, ImplRow, Ty};

/// Whether all ids in the row of a normalized type are in range, and its lists are short enough.
pub fn is_normal_named(db: &HirDatabase, row: &(AliasId, GenericArgs, Ty)) -> bool
    ensures { result ≡ is_normal_named db.now row.now }
{
    is_in_range(db.aliases.len(), row.0.0) && are_args_named(db, &row.1) && is_ty_named(db, &row.2)
}

/// Whether all ids in the row that resolves a trait's function are in range, and its lists are short enough.
pub fn is_impl_named(db: &HirDatabase, row: &ImplRow) -> bool
    ensures { result ≡ is_impl_named db.now row.now }
{
    is_in_range(db.functions.len(), row.function.0)
        && are_args_named(db, &row.args)
        && is_in_range(db.functions.len(), row.target.0)
        && are_args_named(db, &row.target_args)
}

/// Whether all ids in the row that resolves a trait's constant are in range, and its lists are short enough.
pub fn is_const_impl_named(db: &HirDatabase, row: &ConstImplRow) -> bool
    ensures { result ≡ is_const_impl_named db.now row.now }
{
    is_in_range(db.consts.len(), row.konst.0)
        && are_args_named(db, &row.args)
        && is_in_range(db.consts.len(), row.target.0)
        && are_args_named(db, &row.target_args)
}
