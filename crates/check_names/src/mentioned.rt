//! Whether all mentions in types and generic arguments pass the tests of the check.

ghost use Rattle.std.specs.Prelude.{◌≡◌};
ghost use Rattle.std.specs.List.{list_all};
ghost use Rattle.check_names.specs.Known.{are_args_known, is_ty_named, are_args_named, is_ty_closed, are_args_closed, are_args_settled};

use crate::test::{Closed, Known, Named, Settled};
use mentions::{all_in_args, all_in_ty};
use world::{GenericArgs, HirDatabase, Ty};

/// Whether all ids in generic arguments are in range.
pub fn are_args_known(db: &HirDatabase, args: &GenericArgs) -> bool
    ensures { result ≡ are_args_known db.now args.now }
{
    all_in_args(&Known { db }, args)
}

/// Whether all ids in a type are in range, and the tuples and generic arguments in it are short enough
/// for indices of 32 bits.
pub fn is_ty_named(db: &HirDatabase, ty: &Ty) -> bool
    ensures { result ≡ is_ty_named db.now ty.now }
{
    all_in_ty(&Named { db }, ty)
}

/// Whether each of these types passes `is_ty_named`.
pub fn are_tys_named(db: &HirDatabase, tys: &[Ty]) -> bool
    ensures { result ≡ list_all (is_ty_named db.now) tys.now }
{
    tys.iter().all(|ty| is_ty_named(db, ty))
}

/// Whether all ids in generic arguments are in range, and the tuples and generic arguments in them are
/// short enough for indices of 32 bits.
pub fn are_args_named(db: &HirDatabase, args: &GenericArgs) -> bool
    ensures { result ≡ are_args_named db.now args.now }
{
    all_in_args(&Named { db }, args)
}

/// Whether a type has no alias and no generic parameter in it.
pub fn is_ty_closed(ty: &Ty) -> bool
    ensures { result ≡ is_ty_closed ty.now }
{
    all_in_ty(&Closed, ty)
}

/// Whether generic arguments have no alias and no generic parameter in them.
pub fn are_args_closed(args: &GenericArgs) -> bool
    ensures { result ≡ are_args_closed args.now }
{
    all_in_args(&Closed, args)
}

/// Whether generic arguments have no generic parameter and no error in them.
pub fn are_args_settled(args: &GenericArgs) -> bool
    ensures { result ≡ are_args_settled args.now }
{
    all_in_args(&Settled, args)
}
