//! Whether the ids in a map of an inference result, from nodes of the body to findings, are in range.
ghost use Rattle.std.specs.Prelude.{◌≡◌, ◌&&◌};
ghost use Rattle.std.specs.List.{list_all};

use crate::findings::{Finding, NodeKey};
use world::{Body, HirDatabase, Map};

/// Whether the node of an entry is the body's, and all ids in its value are in range.
fn is_entry_named<K: NodeKey, V: Finding>(db: &HirDatabase, body: &Body, key: &K, value: &V) -> bool
    ensures { result ≡ (K.is_of body.now key.now && V.is_named db.now body.now value.now) }
{
    key.is_of(body) && value.is_named(db, body)
}

/// Whether the node of each entry is the body's, and all ids in its value are in range.
pub(crate) fn are_entries_named<K: Ord + NodeKey, V: Finding>(
    db: &HirDatabase,
    body: &Body,
    map: &Map<K, V>,
) -> bool
    ensures { result ≡ list_all (λ entry. K.is_of body.now entry.0 && V.is_named db.now body.now entry.1) map.now }
{
    map.iter()
        .all(|(key, value)| is_entry_named(db, body, key, value))
}
