ghost use Rattle.std.specs.Prelude.{◌≡◌, [], ◌&&◌, ◌++◌, length, slice_get, IfOk, OnOk, OnErr};
ghost use Rattle.std.specs.BTreeMap.{insert_entry, is_at};
ghost use Rattle.std.specs.Cmp.{and_per, and_equiv, on_per, on_equiv, on_po, on_total, then_agrees, then_po, then_total, both_tied};
ghost use Rattle.std.specs.Cmp.Lexicographic.{pointwise, slice_cmp, slice_partial_cmp, lists_per, lists_equiv, lists_po, lists_total, lists_agrees, lists_ties};
ghost use Rattle.std.specs.Hash as fed;
ghost use Rattle.std.specs.Hash.{on_Alike, and-Alike, items_Alike};
ghost use Rattle.std.specs.Map.{lookup};
ghost use Rattle.std.specs.Map.Iter.{ShowsInOrder, deref_pair};
ghost use Rattle.std.specs.Option.{option_copied, option_map};
ghost use Rattle.std.specs.Ordering.{ordering_then, partial_ordering_then};

use crate::{NoMemory, TryClone};
use std::alloc::Global;
use std::cmp::Ordering;
use std::collections::BTreeMap;
use std::collections::btree_map::Iter;
use std::hash::{Hash, Hasher};
use std::marker::Model;

/// A finite map, which contracts see as its entries by rising distinct keys.
#[derive(Debug, Drop)]
pub struct Map<K: Ord, V> {
    entries: BTreeMap<K, V>,
}

impl<K: Ord, V> Model for Map<K, V> {
    ghost use Rattle.std.specs.Prelude.{List};
    ghost use Rattle.std.specs.Coded.{coded_list, coded×};

    ghost Value = { List (K × V) };

    ghost coded = { coded_list (coded× K.code V.code) };

    ghost view = { λ map. map.entries.entries };
}

impl<K: Ord, V> Map<K, V> {
    /// A map with no entries. It takes no memory.
    pub fn new(alloc: Global) -> Map<K, V>
        ensures { result ≡ [] }
    {
        Map {
            entries: BTreeMap::new(alloc),
        }
    }

    /// How many entries there are.
    pub fn len(&self) -> u64
        ensures { result ≡ length self.now }
    {
        self.entries.len() as u64
    }

    /// The value at a key.
    pub fn get(&self, k: &K) -> Option<&V>
        ensures { option_copied result ≡ lookup (is_at (K.cmp k.now)) self.now }
    {
        self.entries.get(k)
    }

    /// The entry at place `i`, counted from 0 in rising order of the keys.
    pub fn at(&self, i: u64) -> Option<(&K, &V)>
        ensures { option_map (λ entry. (entry.0.now, entry.1.now)) result ≡ slice_get self.now i }
    {
        self.entries.iter().nth(i as usize)
    }

    /// The entries by rising keys.
    pub fn iter(&self) -> Iter<'_, K, V>
        ensures rest { result ≡ self.now }
        ensures runs { ShowsInOrder (deref_pair {K = K} {X = V}) }
    {
        self.entries.iter()
    }
}

impl<K: Ord + Drop, V: Drop> Map<K, V> {
    /// Sets the value at a key, and answers the one that stood there.
    pub fn insert(&mut self, k: K, v: V) -> Result<Option<V>, NoMemory>
        ensures before { IfOk result (λ before. before ≡ lookup (is_at (K.cmp k)) self.old) }
        ensures ok { OnOk result (self.new ≡ insert_entry K.cmp self.old k v) }
        ensures err { OnErr result (self.new ≡ self.old) }
    {
        Ok(self.entries.insert(k, v)?)
    }
}

impl<K: Ord + TryClone + Drop, V: TryClone + Drop> TryClone for Map<K, V> {
    fn try_clone(&self, alloc: Global) -> Result<Map<K, V>, NoMemory> {
        let mut copy = Map::new(alloc);
        for (k, v) in self.entries.iter() {
            let key = k.try_clone(alloc)?;
            let value = v.try_clone(alloc)?;
            copy.insert(key, value)?;
        }
        Ok(copy)
    }
}

impl<K: Ord, V: PartialEq> PartialEq for Map<K, V> {
    ghost eq = { pointwise (λ p q. K.eq p.0 q.0 && V.eq p.1 q.1) };

    ghost laws = { lists_per (and_per (on_per (λ p. p.0) K.PartialEq.laws) (on_per (λ p. p.1) V.laws)) };

    fn eq(&self, other: &Map<K, V>) -> bool {
        self.entries == other.entries
    }
}

impl<K: Ord, V: Eq> Eq for Map<K, V> {
    ghost laws = { lists_equiv (and_equiv (on_equiv (λ p. p.0) K.Eq.laws) (on_equiv (λ p. p.1) V.Eq.laws)) };
}

impl<K: Ord, V: PartialOrd> PartialOrd for Map<K, V> {
    ghost partial_cmp = { slice_partial_cmp (λ p q. partial_ordering_then (K.partial_cmp p.0 q.0) (V.partial_cmp p.1 q.1)) };

    ghost laws = { lists_po (then_po (on_po (λ p. p.0) K.PartialOrd.laws) (on_po (λ p. p.1) V.PartialOrd.laws)) };

    fn partial_cmp(&self, other: &Map<K, V>) -> Option<Ordering> {
        self.entries.partial_cmp(&other.entries)
    }
}

impl<K: Ord, V: Ord> Ord for Map<K, V> {
    ghost cmp = { slice_cmp (λ p q. ordering_then (K.cmp p.0 q.0) (V.cmp p.1 q.1)) };

    ghost total = { lists_total (then_total (on_total (λ p. p.0) K.total) (on_total (λ p. p.1) V.total)) };

    ghost matches_partial_cmp = { lists_agrees (then_agrees (λ p q. K.matches_partial_cmp p.0 q.0) (λ p q. V.matches_partial_cmp p.1 q.1)) };

    ghost matches_eq = { λ x y.
        let K' = K.cmp in
        let V' = V.cmp in
        lists_ties (λ p q. ordering_then (K' p.0 q.0) (V' p.1 q.1)) (λ p q. both_tied _ _ (K' p.0 q.0) (V' p.1 q.1) (K.matches_eq p.0 q.0) (V.matches_eq p.1 q.1)) x y };

    fn cmp(&self, other: &Map<K, V>) -> Ordering {
        self.entries.cmp(&other.entries)
    }
}

impl<K: Ord + Hash, V: Hash> Hash for Map<K, V> {
    ghost hash_input = { fed.slice (λ p. K.hash_input p.0 ++ V.hash_input p.1) };

    ghost respects_eq = { (items_Alike (and-Alike (on_Alike (λ p. p.0) (record { fed = K.respects_eq })) (on_Alike (λ p. p.1) (record { fed = V.respects_eq })))).fed };

    fn hash<H: Hasher>(&self, state: &mut H) {
        self.entries.hash(state);
    }
}
