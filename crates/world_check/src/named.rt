//! The tables whose rows are named by ids: they are short enough, and all ids in them are in range.
ghost use Rattle.std.specs.Prelude.{◌≡◌, if◌then◌else◌, not, length, Some};
ghost use Rattle.std.specs.List.{position};
ghost use Rattle.std.specs.Option.{option_map};
ghost use Rattle.check_names.specs.Known.{is_nameable};
ghost use Rattle.world_check.specs.Meets.{Meets};
ghost use Rattle.check_trees.specs.First.{FindsFailing};
ghost use Rattle.world_check.specs.WorldPlaces.{of_adts, of_items, of_names, of_table};
ghost use Rattle.world_check.specs.declared.place.Place.TheVariants.{Row, Table};
ghost use Rattle.world_check.specs.declared.place.TableName.TheVariants.{Closures};

use crate::tables::{in_table, row_place, wrong_length};
use crate::{CheckRow, Place, TableName};
use check_items::{
    is_closure_named, is_const_named, is_const_param_named, is_enum_named, is_function_named,
    is_static_named, is_struct_named, is_variant_named,
};
use world::{
    ClosureRow, ConstParamRow, ConstRow, EnumRow, FunctionRow, HirDatabase, List, StaticRow,
    StructRow, VariantRow,
};

/// A row that is named by an id.
trait NamedRow {
    ghost use Rattle.std.specs.Prelude.{Bool};
    ghost use Rattle.world.specs.declared.database.HirDatabase.{HirDatabase};

    ghost is_named: { HirDatabase → Self → Bool };

    /// Whether all ids in the row are in range.
    fn is_named(&self, db: &HirDatabase) -> bool
        ensures { result ≡ is_named db.now self.now };
}

impl NamedRow for FunctionRow {
    ghost use Rattle.check_items.specs.Names.{is_function_named};

    ghost is_named = { is_function_named };

    fn is_named(&self, db: &HirDatabase) -> bool {
        is_function_named(db, self)
    }
}

impl NamedRow for ConstRow {
    ghost use Rattle.check_items.specs.Names.{is_const_named};

    ghost is_named = { is_const_named };

    fn is_named(&self, db: &HirDatabase) -> bool {
        is_const_named(db, self)
    }
}

impl NamedRow for StaticRow {
    ghost use Rattle.check_items.specs.Names.{is_static_named};

    ghost is_named = { is_static_named };

    fn is_named(&self, db: &HirDatabase) -> bool {
        is_static_named(db, self)
    }
}

impl NamedRow for StructRow {
    ghost use Rattle.check_items.specs.Names.{is_struct_named};

    ghost is_named = { is_struct_named };

    fn is_named(&self, db: &HirDatabase) -> bool {
        is_struct_named(db, self)
    }
}

impl NamedRow for EnumRow {
    ghost use Rattle.check_items.specs.Names.{is_enum_named};

    ghost is_named = { is_enum_named };

    fn is_named(&self, db: &HirDatabase) -> bool {
        is_enum_named(db, self)
    }
}

impl NamedRow for VariantRow {
    ghost use Rattle.check_items.specs.Names.{is_variant_named};

    ghost is_named = { is_variant_named };

    fn is_named(&self, db: &HirDatabase) -> bool {
        is_variant_named(db, self)
    }
}

impl NamedRow for ConstParamRow {
    ghost use Rattle.check_items.specs.Names.{is_const_param_named};

    ghost is_named = { is_const_param_named };

    fn is_named(&self, db: &HirDatabase) -> bool {
        is_const_param_named(db, self)
    }
}

impl NamedRow for ClosureRow {
    ghost use Rattle.check_items.specs.Names.{is_closure_named};

    ghost is_named = { is_closure_named };

    fn is_named(&self, db: &HirDatabase) -> bool {
        is_closure_named(db, self)
    }
}

/// The index of the first row that has an id out of range.
fn wrong_row_among<R: NamedRow>(db: &HirDatabase, rows: &[R]) -> Option<usize>
    ensures { result ≡ position (λ row. not (R.is_named db.now row)) rows.now }
{
    rows.iter().position(|row| !row.is_named(db))
}

/// The table itself if it has too many rows for ids of 32 bits, else its first row that has an id out of
/// range.
fn wrong_table<R: NamedRow>(db: &HirDatabase, table: TableName, rows: &List<R>) -> Option<Place>
    ensures { result ≡ (if is_nameable (length rows.now) then option_map (Row table) (position (λ row. not (R.is_named db.now row)) rows.now) else Some (Table table)) }
{
    let found = wrong_row_among(db, rows.as_slice());
    in_table(table, rows.len(), row_place(table, found))
}

/// The first wrong place among the closures.
pub(crate) fn wrong_closure(db: &HirDatabase) -> Option<Place>
    ensures { FindsFailing (Meets CheckRow.C1 db.now) (of_table Closures db.now.closures) result }
{
    wrong_table(db, TableName::Closures, &db.closures)
}

/// The first wrong place among crates, functions, constants and statics.
pub(crate) fn wrong_item(db: &HirDatabase) -> Option<Place>
    ensures { FindsFailing (Meets CheckRow.C1 db.now) (of_items db.now) result }
{
    let statics = wrong_table(db, TableName::Statics, &db.statics);
    let consts = wrong_table(db, TableName::Consts, &db.consts).or(statics);
    let functions = wrong_table(db, TableName::Functions, &db.functions).or(consts);
    wrong_length(TableName::Crates, db.crates.len()).or(functions)
}

/// The first wrong place among structs, unions, enums and variants.
pub(crate) fn wrong_adt(db: &HirDatabase) -> Option<Place>
    ensures { FindsFailing (Meets CheckRow.C1 db.now) (of_adts db.now) result }
{
    let variants = wrong_table(db, TableName::Variants, &db.variants);
    let enums = wrong_table(db, TableName::Enums, &db.enums).or(variants);
    let unions = wrong_table(db, TableName::Unions, &db.unions).or(enums);
    wrong_table(db, TableName::Structs, &db.structs).or(unions)
}

/// The first wrong place among traits, aliases and generic parameters.
pub(crate) fn wrong_trait_or_param(db: &HirDatabase) -> Option<Place>
    ensures { FindsFailing (Meets CheckRow.C1 db.now) (of_names db.now) result }
{
    let const_params = wrong_table(db, TableName::ConstParams, &db.const_params);
    let type_params = wrong_length(TableName::TypeParams, db.type_params.len()).or(const_params);
    let aliases = wrong_length(TableName::Aliases, db.aliases.len()).or(type_params);
    wrong_length(TableName::Traits, db.traits.len()).or(aliases)
}
