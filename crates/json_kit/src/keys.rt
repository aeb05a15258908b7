//! Objects whose keys are the fields of a struct.

ghost use Rattle.std.specs.Prelude.{◌≡◌, not, map, string_bytes, option_map};
ghost use Rattle.std.specs.List.{find, list_any};
ghost use Rattle.std.specs.BTreeMap.{keys};
ghost use Rattle.std.specs.Str.{bytes_eq};
ghost use Rattle.serde_json.specs.Find.{get};
ghost use Rattle.serde_json.specs.View.{view, members_view};
ghost use Rattle.json_kit.specs.Fit.{Gives, GivesBy, below, found, key_step};
ghost use Rattle.json_kit.specs.Keys.{members_of, required, optional, unknown_key, no_key, with_no_other};

use crate::NotAWorld;
use crate::from_json::{FromJson, MayBeAbsent, below_key, here, inside_key};
use serde_json::{Map, Value};
use std::alloc::Global;

/// The members of an object.
pub fn members_of(alloc: Global, tree: &Value) -> Result<&Map<String, Value>, NotAWorld>
    ensures { GivesBy (λ members. members_view members.now.entries) result (members_of (view tree.now)) }
{
    tree.as_object().ok_or_else(|| here(alloc))
}

/// The value at a key that has to be there.
pub fn required<By, T: FromJson<By>>(
    alloc: Global,
    tree: &Value,
    name: &str,
) -> Result<T, NotAWorld>
    ensures { Gives result (required name.now T.reads (view tree.now)) }
{
    let part = part_at(alloc, tree, name)?;
    T::from_json(alloc, part).map_err(|fault| below_key(alloc, name, fault))
}

/// The JSON value at a key that has to be there.
pub fn part_at<'a>(alloc: Global, tree: &'a Value, name: &str) -> Result<&'a Value, NotAWorld>
    ensures { GivesBy (λ part. view part.now) result (below (key_step name.now) (found (get name.now (view tree.now)))) }
{
    tree.get(name)
        .ok_or_else(|| below_key(alloc, name, here(alloc)))
}

/// The value at a key that may be left out.
#[tactic(auto, using(crate::proofs::Faults::inside_gives))]
pub fn optional<By, T: FromJson<By> + MayBeAbsent<By>>(
    alloc: Global,
    tree: &Value,
    name: &str,
) -> Result<T, NotAWorld>
    ensures { Gives result (optional T.left_out name.now T.reads (view tree.now)) }
{
    match tree.get(name) {
        Some(part) => inside_key(alloc, name, T::from_json(alloc, part)),
        None => Ok(T::absent(alloc)),
    }
}

/// Whether a key is one of these names.
fn is_among(names: &[&str], key: &str) -> bool
    ensures { result ≡ list_any (λ name. bytes_eq name.now key.now) names.now }
{
    names.iter().any(|name| *name == key)
}

/// The first key that isn't one of these names.
fn other_key<'a>(members: &'a Map<String, Value>, names: &[&str]) -> Option<&'a String>
    ensures { option_map (λ key. key.now) result
        ≡ find (λ key. not (list_any (λ name. bytes_eq name.now (string_bytes key)) names.now)) (keys members.now) }
{
    members.keys().find(|key| !is_among(names, key.as_str()))
}

/// The first key that isn't one of these names.
fn unknown_key<'a>(members: &'a Map<String, Value>, names: &[&str]) -> Option<&'a String>
    ensures { option_map (λ key. string_bytes key.now) result
        ≡ unknown_key (map (λ name. name.now) names.now) (members_view members.now.entries) }
{
    other_key(members, names)
}

/// The value `value` of an object, unless the object has a key that isn't one of these names.
pub fn with_no_other<T: Drop>(
    alloc: Global,
    members: &Map<String, Value>,
    names: &[&str],
    value: T,
) -> Result<T, NotAWorld>
    ensures { Gives result (with_no_other (map (λ name. name.now) names.now) (members_view members.now.entries) value) }
{
    match unknown_key(members, names) {
        Some(key) => Err(below_key(alloc, key.as_str(), here(alloc))),
        None => Ok(value),
    }
}
