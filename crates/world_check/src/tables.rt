//! Places of tables and of their rows.
ghost use Rattle.std.specs.Prelude.{◌≡◌, if◌then◌else◌, Some, None};
ghost use Rattle.std.specs.Option.{option_map};
ghost use Rattle.check_names.specs.Known.{is_nameable};
ghost use Rattle.world_check.specs.declared.place.Place.TheVariants.{Row, Table};

use crate::{Place, TableName};
use check_names::is_nameable;

/// The place of an optional row of a table.
pub(crate) fn row_place(table: TableName, found: Option<usize>) -> Option<Place>
    ensures { result ≡ option_map (Row table) found }
{
    match found {
        Some(i) => Some(Place::Row(table, i as u64)),
        None => None,
    }
}

/// The place of an optional row of a table, by its id.
pub(crate) fn numbered_place(table: TableName, found: Option<u64>) -> Option<Place>
    ensures { result ≡ option_map (Row table) found }
{
    match found {
        Some(i) => Some(Place::Row(table, i)),
        None => None,
    }
}

/// The table itself if it has too many rows for ids of 32 bits, else the place that was found in it.
pub(crate) fn in_table(table: TableName, entries: u64, found: Option<Place>) -> Option<Place>
    ensures { result ≡ (if is_nameable entries then found else Some (Table table)) }
{
    if is_nameable(entries) {
        found
    } else {
        Some(Place::Table(table))
    }
}

/// The table itself if it has too many rows for ids of 32 bits.
pub(crate) fn wrong_length(table: TableName, entries: u64) -> Option<Place>
    ensures { result ≡ (if is_nameable entries then None else Some (Table table)) }
{
    in_table(table, entries, None)
}
