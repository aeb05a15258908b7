//! Types and generic arguments at generic arguments, to look up without being made.
ghost use Rattle.std.specs.Prelude.{◌≡◌, true};
ghost use Rattle.std.specs.BTreeMap.Comparable.{le_lt_trans};
ghost use Rattle.std.specs.Option.{is_some};
ghost use Rattle.std.specs.Ordering.{ordering_then};
ghost use Rattle.types.specs.Orders.{args_cmp, ty_cmp};
ghost use Rattle.types.specs.Places.{place_at};
ghost use Rattle.check_instances.specs.Comparisons.{args_at, ty_at};
ghost use Rattle.check_instances.specs.Made.{AliasRow, alias_cmp, alias_total, args_made, ty_made, ty_total};

use crate::comparing::{compare_args, compare_ty};
use std::cmp::Ordering;
use std::collections::btree_map::Comparable;
use types::{AliasId, GenericArgs, Table, Ty};

/// The rows of normalized types.
type Normals = Table<(AliasId, GenericArgs), (AliasId, GenericArgs, Ty)>;

/// A type without aliases, at generic arguments with the normalized types behind them.
#[derive(Clone, Copy)]
pub(crate) struct TyKey<'a> {
    pub(crate) ty: &'a Ty,
    pub(crate) normals: &'a Normals,
    pub(crate) args: &'a GenericArgs,
    ghost exists: { is_some (ty_at normals.now args.now ty.now) ≡ true },
}

impl<'a> Comparable<Ty> for TyKey<'a> {
    ghost compare = { λ q. ty_cmp (ty_made q.normals.now q.args.now q.ty.now) };

    ghost respects_cmp = { λ q. ty_total.congr (ty_made q.normals.now q.args.now q.ty.now) };

    ghost below_greater = { λ q. le_lt_trans ty_total (ty_made q.normals.now q.args.now q.ty.now) };

    fn compare(&self, key: &Ty) -> Ordering {
        compare_ty(self.ty, key, self.normals, self.args)
    }
}

/// An alias and its arguments, which are without aliases, at such generic arguments.
#[derive(Clone, Copy)]
struct AliasKey<'a> {
    id: AliasId,
    own: &'a GenericArgs,
    normals: &'a Normals,
    args: &'a GenericArgs,
    ghost exists: { is_some (args_at normals.now args.now own.now) ≡ true },
}

impl<'a> Comparable<(AliasId, GenericArgs)> for AliasKey<'a> {
    ghost compare = { λ q. alias_cmp (q.id, args_made q.normals.now q.args.now q.own.now) };

    ghost respects_cmp = { λ q. alias_total.congr (q.id, args_made q.normals.now q.args.now q.own.now) };

    ghost below_greater = { λ q. le_lt_trans alias_total (q.id, args_made q.normals.now q.args.now q.own.now) };

    fn compare(&self, key: &(AliasId, GenericArgs)) -> Ordering {
        let first = self.id.cmp(&key.0);
        if first.is_ne() {
            return first;
        }
        compare_args(self.own, &key.1, self.normals, self.args)
    }
}

/// The place of the normalized type of an alias, whose arguments are without aliases.
pub(crate) fn normal_place(
    id: AliasId,
    own: &GenericArgs,
    normals: &Normals,
    args: &GenericArgs,
) -> Option<u64>
    requires { is_some (args_at normals.now args.now own.now) ≡ true }
    ensures { result ≡ place_at {R = AliasRow} (λ row. (row.0, row.1)) (alias_cmp (id, args_made normals.now args.now own.now)) normals.now }
{
    normals.place_of(AliasKey {
        id,
        own,
        normals,
        args,
    })
}
