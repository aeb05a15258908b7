//! The tables whose rows have keys: ids are in range, and keys are distinct.
ghost use Rattle.std.specs.Prelude.{◌≡◌, Some, Decides, slice_get};
ghost use Rattle.std.specs.Option.{option_map};
ghost use Rattle.world.specs.Failing.{first_failing};
ghost use Rattle.world_check.specs.Meets.{Meets, has_new_alias, has_new_const, has_new_function, has_new_type};
ghost use Rattle.check_trees.specs.First.{FindsFailing};
ghost use Rattle.world_check.specs.WorldPlaces.{of_keyed_rows};
ghost use Rattle.world_check.specs.declared.place.Place.TheVariants.{Row};

use crate::tables::row_place;
use crate::{CheckRow, Place, TableName};
use check_items::{is_const_impl_named, is_impl_named, is_layout_named, is_normal_named};
use world::{
    AliasId, ConstImplRow, GenericArgs, HirDatabase, ImplRow, ItemKey, Layout, Row, Table, Ty,
};

/// Whether an optional index is `i`.
fn is_number(found: Option<u64>, i: u64) -> bool
    ensures { Decides result (found ≡ Some i) }
{
    match found {
        Some(other) => other == i,
        None => false,
    }
}

/// Whether no row before row `i` has the same type.
fn has_new_type(db: &HirDatabase, i: u64, row: &(Ty, Layout)) -> bool
    requires { slice_get db.now.layouts i ≡ Some row.now }
    ensures { result ≡ has_new_type db.now i row.now }
{
    is_number(db.layouts.place_of(&row.0), i)
}

/// Whether no row before row `i` has the same alias with the same arguments.
fn has_new_alias(db: &HirDatabase, i: u64, row: &(AliasId, GenericArgs, Ty)) -> bool
    requires { slice_get db.now.normals i ≡ Some row.now }
    ensures { result ≡ has_new_alias db.now i row.now }
{
    let key = ItemKey {
        id: row.0,
        args: &row.1,
    };
    is_number(db.normals.place_of(key), i)
}

/// Whether no row before row `i` has the same function with the same arguments.
fn has_new_function(db: &HirDatabase, i: u64, row: &ImplRow) -> bool
    requires { slice_get db.now.impls i ≡ Some row.now }
    ensures { result ≡ has_new_function db.now i row.now }
{
    let key = ItemKey {
        id: row.function,
        args: &row.args,
    };
    is_number(db.impls.place_of(key), i)
}

/// Whether no row before row `i` has the same constant with the same arguments.
fn has_new_const(db: &HirDatabase, i: u64, row: &ConstImplRow) -> bool
    requires { slice_get db.now.const_impls i ≡ Some row.now }
    ensures { result ≡ has_new_const db.now i row.now }
{
    let key = ItemKey {
        id: row.konst,
        args: &row.args,
    };
    is_number(db.const_impls.place_of(key), i)
}

/// A row of a table whose rows have keys.
trait KeyedRow {
    ghost use Rattle.std.specs.Prelude.{◌≡◌, ℕ, Bool, List, Some, slice_get};
    ghost use Rattle.world.specs.declared.database.HirDatabase.{HirDatabase};

    ghost rows: { HirDatabase → List Self };

    ghost is_known: { HirDatabase → ℕ → Self → Bool };

    /// Whether all ids of row `i` are in range, and no row before has its key.
    fn is_known(&self, db: &HirDatabase, i: u64) -> bool
        requires { slice_get (rows db.now) i ≡ Some self.now }
        ensures { result ≡ is_known db.now i self.now };
}

impl KeyedRow for (Ty, Layout) {
    ghost use Rattle.std.specs.Prelude.{◌&&◌};
    ghost use Rattle.check_items.specs.Names.{is_layout_named};
    ghost use Rattle.world_check.specs.Meets.{has_new_type};

    ghost rows = { λ world. world.layouts };

    ghost is_known = { λ world i row. is_layout_named world row && has_new_type world i row };

    fn is_known(&self, db: &HirDatabase, i: u64) -> bool {
        is_layout_named(db, self) && has_new_type(db, i, self)
    }
}

impl KeyedRow for (AliasId, GenericArgs, Ty) {
    ghost use Rattle.std.specs.Prelude.{◌&&◌};
    ghost use Rattle.check_items.specs.Names.{is_normal_named};
    ghost use Rattle.world_check.specs.Meets.{has_new_alias};

    ghost rows = { λ world. world.normals };

    ghost is_known = { λ world i row. is_normal_named world row && has_new_alias world i row };

    fn is_known(&self, db: &HirDatabase, i: u64) -> bool {
        is_normal_named(db, self) && has_new_alias(db, i, self)
    }
}

impl KeyedRow for ImplRow {
    ghost use Rattle.std.specs.Prelude.{◌&&◌};
    ghost use Rattle.check_items.specs.Names.{is_impl_named};
    ghost use Rattle.world_check.specs.Meets.{has_new_function};

    ghost rows = { λ world. world.impls };

    ghost is_known = { λ world i row. is_impl_named world row && has_new_function world i row };

    fn is_known(&self, db: &HirDatabase, i: u64) -> bool {
        is_impl_named(db, self) && has_new_function(db, i, self)
    }
}

impl KeyedRow for ConstImplRow {
    ghost use Rattle.std.specs.Prelude.{◌&&◌};
    ghost use Rattle.check_items.specs.Names.{is_const_impl_named};
    ghost use Rattle.world_check.specs.Meets.{has_new_const};

    ghost rows = { λ world. world.const_impls };

    ghost is_known = { λ world i row. is_const_impl_named world row && has_new_const world i row };

    fn is_known(&self, db: &HirDatabase, i: u64) -> bool {
        is_const_impl_named(db, self) && has_new_const(db, i, self)
    }
}

/// The index of the first row of a table that has an id out of range, or the key of an earlier row.
fn wrong_row_among<R: KeyedRow>(db: &HirDatabase, rows: &[R]) -> Option<usize>
    requires { rows.now ≡ R.rows db.now }
    ensures { result ≡ first_failing (R.is_known db.now) 0 rows.now }
{
    for (i, row) in rows.iter().enumerate() {
        if !row.is_known(db, i as u64) {
            return Some(i);
        }
    }
    None
}

/// The place of the first row of a table that has an id out of range, or the key of an earlier row.
fn wrong_row<K: Ord, R: Row<K> + KeyedRow>(
    db: &HirDatabase,
    table: TableName,
    rows: &Table<K, R>,
) -> Option<Place>
    requires { rows.now ≡ R.rows db.now }
    ensures { result ≡ option_map (Row table) (first_failing (R.is_known db.now) 0 rows.now) }
{
    row_place(table, wrong_row_among(db, rows.as_slice()))
}

/// The first wrong row of the layouts, normalized types and resolved impl items.
pub(crate) fn wrong_keyed_row(db: &HirDatabase) -> Option<Place>
    ensures { FindsFailing (Meets CheckRow.C1 db.now) (of_keyed_rows db.now) result }
{
    let const_impls = wrong_row(db, TableName::ConstImpls, &db.const_impls);
    let impls = wrong_row(db, TableName::Impls, &db.impls).or(const_impls);
    let normals = wrong_row(db, TableName::Normals, &db.normals).or(impls);
    wrong_row(db, TableName::Layouts, &db.layouts).or(normals)
}
