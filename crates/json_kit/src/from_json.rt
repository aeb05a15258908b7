//! The trait of types that are read from a JSON tree, and the paths of parts that don't fit.

ghost use Rattle.std.specs.Prelude.{◌≡◌};
ghost use Rattle.serde_json.specs.Data.{Data};
ghost use Rattle.serde_json.specs.View.{view};
ghost use Rattle.json_kit.specs.Fit.{Fit, Gives, IsBelow, IsInside, IsHere, IsAt, key_step, item_step};

use crate::NotAWorld;
use serde_json::Value;
use std::alloc::{AllocError, Global};
use types::Text;

/// A type that is read from a JSON tree. `By` is the marker type of the crate with the impl, as
/// `JsonKit`, and is inferred at each call.
pub trait FromJson<By>: Sized {
    // The value of a tree, or the path of the first part that doesn't fit.
    ghost reads: { Data → Fit Self };

    /// The value of the tree.
    fn from_json(alloc: Global, tree: &Value) -> Result<Self, NotAWorld>
        ensures { Gives result (reads (view tree.now)) };
}

/// A variant with named fields, which is read from an object.
pub trait Fields {
    /// The enum of the variant.
    type Whole;

    // The variant of a tree, or the path of the first part that doesn't fit.
    ghost reads: { Data → Fit Self.Whole };

    /// The variant with the fields of the object.
    fn read(alloc: Global, tree: &Value) -> Result<Self::Whole, NotAWorld>
        ensures { Gives result (reads (view tree.now)) };
}

/// A type with a default for a key that an object leaves out. `By` is as in `FromJson`.
pub trait MayBeAbsent<By>: Sized {
    // The default value.
    ghost left_out: { Self };

    /// The default value.
    fn absent(alloc: Global) -> Self
        ensures { result ≡ left_out };
}

/// The error for a part that itself doesn't fit: its path is empty.
pub fn here(alloc: Global) -> NotAWorld
    ensures { IsHere result }
{
    Text::from_str(alloc, "").map_or(NotAWorld::NoMemory, |path| NotAWorld::At(path))
}

/// The error of the value at a key, with the path from the object.
pub fn below_key(alloc: Global, name: &str, inner: NotAWorld) -> NotAWorld
    ensures { IsBelow (key_step name.now) inner result }
{
    match inner {
        NotAWorld::At(path) => at_text(alloc, format!(in alloc; ".{name}{}", path.as_str())),
        NotAWorld::NoMemory => NotAWorld::NoMemory,
    }
}

/// The error of the item at an index, with the path from the array.
pub fn below_item(alloc: Global, place: usize, inner: NotAWorld) -> NotAWorld
    ensures { IsBelow (item_step place) inner result }
{
    match inner {
        NotAWorld::At(path) => at_text(alloc, format!(in alloc; "[{place}]{}", path.as_str())),
        NotAWorld::NoMemory => NotAWorld::NoMemory,
    }
}

/// The result of reading the item at an index, with the path of an error from the array.
pub fn inside_item<T>(
    alloc: Global,
    place: usize,
    read: Result<T, NotAWorld>,
) -> Result<T, NotAWorld>
    ensures { IsInside (item_step place) read result }
{
    read.map_err(|fault| below_item(alloc, place, fault))
}

/// The result of reading the value at a key, with the path of an error from the object.
pub fn inside_key<T>(alloc: Global, name: &str, read: Result<T, NotAWorld>) -> Result<T, NotAWorld>
    ensures { IsInside (key_step name.now) read result }
{
    read.map_err(|fault| below_key(alloc, name, fault))
}

/// The error with this path; `NoMemory` where there was no memory for the path.
fn at_text(alloc: Global, path: Result<String, AllocError>) -> NotAWorld
    ensures { IsAt path result }
{
    match path {
        Ok(path) => match Text::from_str(alloc, path.as_str()) {
            Ok(path) => NotAWorld::At(path),
            Err(_) => NotAWorld::NoMemory,
        },
        Err(_) => NotAWorld::NoMemory,
    }
}
