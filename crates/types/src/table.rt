//! Tables, whose rows are found by their keys.
ghost use Rattle.std.specs.Prelude.{◌≡◌, [], ◌∷◌, ◌++◌, length, slice_get, OnOk, OnErr};
ghost use Rattle.std.specs.Cmp.Lexicographic.{pointwise, slice_cmp, slice_partial_cmp, lists_per, lists_equiv, lists_po, lists_total, lists_agrees, lists_ties};
ghost use Rattle.std.specs.Hash as fed;
ghost use Rattle.std.specs.Hash.{items_Alike};
ghost use Rattle.std.specs.Option.{option_copied};
ghost use Rattle.types.specs.Places.{place_at, row_at};

use crate::{NoMemory, Row, TryClone};
use std::alloc::Global;
use std::cmp::Ordering;
use std::collections::BTreeMap;
use std::collections::btree_map::Comparable;
use std::hash::{Hash, Hasher};
use std::marker::Model;

/// A list of rows, which finds the first row of a key by an index. Contracts see it as the rows in
/// order.
#[derive(Debug, Drop)]
pub struct Table<K: Ord, R: Row<K>> {
    rows: Vec<R>,
    /// From each key to the place of its first row.
    places: BTreeMap<K, u64>,
}

impl<K: Ord, R: Row<K>> Model for Table<K, R> {
    ghost use Rattle.std.specs.Prelude.{List};
    ghost use Rattle.std.specs.Coded.{coded_list};
    ghost use Rattle.types.specs.Places.{IsIndex};

    ghost Value = { List R };

    ghost coded = { coded_list R.code };

    ghost view = { λ table. table.rows.items };

    ghost invariant = { λ table. IsIndex K.cmp R.key table.rows.items table.places.entries };
}

impl<K: Ord, R: Row<K>> Table<K, R> {
    /// A table with no rows. It takes no memory.
    pub fn new(alloc: Global) -> Table<K, R>
        ensures { result ≡ [] }
    {
        Table {
            rows: Vec::new(alloc),
            places: BTreeMap::new(alloc),
        }
    }

    /// How many rows there are.
    pub fn len(&self) -> u64
        ensures { result ≡ length self.now }
    {
        self.rows.len() as u64
    }

    /// The row at place `i`, counted from 0.
    pub fn at(&self, i: u64) -> Option<&R>
        ensures { option_copied result ≡ slice_get self.now i }
    {
        self.rows.get(i as usize)
    }

    /// The rows in order.
    pub fn as_slice(&self) -> &[R]
        ensures { result.now ≡ self.now }
    {
        self.rows.as_slice()
    }

    /// The first row with a key.
    pub fn get<Q: Comparable<K>>(&self, key: Q) -> Option<&R>
        ensures { option_copied result ≡ row_at R.key (Q.compare key) self.now }
    {
        match self.place_of(key) {
            Some(place) => self.at(place),
            None => None,
        }
    }

    /// The place of the first row with a key.
    pub fn place_of<Q: Comparable<K>>(&self, key: Q) -> Option<u64>
        ensures { result ≡ place_at R.key (Q.compare key) self.now }
    {
        self.places.get(key).copied()
    }
}

impl<K: Ord + Drop, R: Row<K> + Drop> Table<K, R> {
    /// Adds a row at the end.
    pub fn push(&mut self, row: R) -> Result<(), NoMemory>
        ensures ok { OnOk result (self.new ≡ self.old ++ row ∷ []) }
        ensures err { OnErr result (self.new ≡ self.old) }
    {
        let key = row.key(*self.rows.allocator())?;
        if self.places.contains_key(&key) {
            self.rows.push(row)?;
            return Ok(());
        }
        self.rows.reserve(1)?;
        self.places.insert(key, self.rows.len() as u64)?;
        self.rows.push(row)?;
        Ok(())
    }
}

impl<K: Ord + Drop, R: Row<K> + TryClone + Drop> TryClone for Table<K, R> {
    fn try_clone(&self, alloc: Global) -> Result<Table<K, R>, NoMemory> {
        let mut copy = Table::new(alloc);
        let rows = self.as_slice();
        for row in rows {
            copy.push(row.try_clone(alloc)?)?;
        }
        Ok(copy)
    }
}

impl<K: Ord, R: Row<K> + PartialEq> PartialEq for Table<K, R> {
    ghost eq = { pointwise R.eq };

    ghost laws = { lists_per R.laws };

    fn eq(&self, other: &Table<K, R>) -> bool {
        self.as_slice() == other.as_slice()
    }
}

impl<K: Ord, R: Row<K> + Eq> Eq for Table<K, R> {
    ghost laws = { lists_equiv R.Eq.laws };
}

impl<K: Ord, R: Row<K> + PartialOrd> PartialOrd for Table<K, R> {
    ghost partial_cmp = { slice_partial_cmp R.partial_cmp };

    ghost laws = { lists_po R.PartialOrd.laws };

    fn partial_cmp(&self, other: &Table<K, R>) -> Option<Ordering> {
        self.as_slice().partial_cmp(&other.as_slice())
    }
}

impl<K: Ord, R: Row<K> + Ord> Ord for Table<K, R> {
    ghost cmp = { slice_cmp R.cmp };

    ghost total = { lists_total R.total };

    ghost matches_partial_cmp = { lists_agrees R.matches_partial_cmp };

    ghost matches_eq = { lists_ties R.cmp R.matches_eq };

    fn cmp(&self, other: &Table<K, R>) -> Ordering {
        self.as_slice().cmp(&other.as_slice())
    }
}

impl<K: Ord, R: Row<K> + Hash> Hash for Table<K, R> {
    ghost hash_input = { fed.slice R.hash_input };

    ghost respects_eq = { (items_Alike (record { fed = R.respects_eq })).fed };

    fn hash<H: Hasher>(&self, state: &mut H) {
        self.as_slice().hash(state);
    }
}
