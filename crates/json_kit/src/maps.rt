//! Maps: an array of pairs with rising keys.

ghost use Rattle.std.specs.Prelude.{◌≡◌, [], None};
ghost use Rattle.serde_json.specs.View.{view, items_view};
ghost use Rattle.json_kit.specs.Fit.{Gives};
ghost use Rattle.json_kit.specs.Maps.{rises, entry_after, entries_from, map_of};
ghost use Rattle.json_kit.specs.Parts.{pair_of};

use crate::NotAWorld;
use crate::from_json::{FromJson, MayBeAbsent, here, inside_item};
use crate::parts::items_at;
use serde_json::Value;
use std::alloc::Global;
use std::cmp::Ordering;
use types::Map;

/// Whether a key is greater than the one before it, if there is one.
fn rises<K: Ord + Copy>(last: Option<K>, key: K) -> bool
    ensures { result ≡ rises K.cmp last key }
{
    last.is_none_or(|last| last.cmp(&key) == Ordering::Less)
}

/// An entry, whose key has to be greater than the one before it.
#[tactic(auto, unfolding(crate::specs::Maps::entry_after))]
fn entry<A, B, K: FromJson<A> + Ord + Copy, V: FromJson<B> + Drop>(
    alloc: Global,
    last: Option<K>,
    item: &Value,
) -> Result<(K, V), NotAWorld>
    ensures { Gives result (entry_after K.cmp (pair_of K.reads V.reads) last (view item.now)) }
{
    let (key, value) = <(K, V)>::from_json(alloc, item)?;
    if rises(last, key) {
        Ok((key, value))
    } else {
        Err(here(alloc))
    }
}

/// The entries that are the items of an array.
fn entries<A, B, K: FromJson<A> + Ord + Copy, V: FromJson<B> + Drop>(
    alloc: Global,
    items: &[Value],
) -> Result<Map<K, V>, NotAWorld>
    ensures { Gives result (entries_from K.cmp (pair_of K.reads V.reads) None 0 (items_view items.now)) }
{
    let mut map = Map::new(alloc);
    let mut last = None;
    for (place, item) in items.iter().enumerate() {
        let (key, value) = inside_item(alloc, place, entry::<A, B, K, V>(alloc, last, item))?;
        last = Some(key);
        map.insert(key, value)?;
    }
    Ok(map)
}

impl<A, B, K: FromJson<A> + Ord + Copy, V: FromJson<B> + Drop> FromJson<(A, B)> for Map<K, V> {
    ghost reads = { map_of K.cmp (pair_of K.reads V.reads) };

    fn from_json(alloc: Global, tree: &Value) -> Result<Map<K, V>, NotAWorld> {
        entries(alloc, items_at(alloc, tree)?)
    }
}

impl<By, K: Ord, V> MayBeAbsent<By> for Map<K, V> {
    ghost left_out = { [] };

    fn absent(alloc: Global) -> Map<K, V> {
        Map::new(alloc)
    }
}
