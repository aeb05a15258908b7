//! Tables: an array of rows.

ghost use Rattle.std.specs.Prelude.{[]};
ghost use Rattle.serde_json.specs.View.{view, items_view};
ghost use Rattle.json_kit.specs.Fit.{Gives};
ghost use Rattle.json_kit.specs.Parts.{items_from, list_of};

use crate::NotAWorld;
use crate::from_json::{FromJson, MayBeAbsent};
use crate::parts::{item_at, items_at};
use serde_json::Value;
use std::alloc::Global;
use types::{Row, Table};

/// The table of an array's items.
fn rows_of<By, K: Ord + Drop, R: Row<K> + FromJson<By> + Drop>(
    alloc: Global,
    items: &[Value],
) -> Result<Table<K, R>, NotAWorld>
    ensures { Gives result (items_from R.reads 0 (items_view items.now)) }
{
    let mut table = Table::new(alloc);
    for (place, item) in items.iter().enumerate() {
        let row = item_at(alloc, item, place)?;
        table.push(row)?;
    }
    Ok(table)
}

impl<By, K: Ord + Drop, R: Row<K> + FromJson<By> + Drop> FromJson<By> for Table<K, R> {
    ghost reads = { list_of R.reads };

    fn from_json(alloc: Global, tree: &Value) -> Result<Table<K, R>, NotAWorld> {
        rows_of(alloc, items_at(alloc, tree)?)
    }
}

impl<By, K: Ord, R: Row<K>> MayBeAbsent<By> for Table<K, R> {
    ghost left_out = { [] };

    fn absent(alloc: Global) -> Table<K, R> {
        Table::new(alloc)
    }
}
