//! Enums: a variant is its name as a string, or an object with its name as the only key.

ghost use Rattle.std.specs.Prelude.{◌≡◌, option_map};
ghost use Rattle.serde_json.specs.Data.{Data};
ghost use Rattle.serde_json.specs.View.{view, members_view};
ghost use Rattle.json_kit.specs.Fit.{Fit, Gives, GivesBy, found};
ghost use Rattle.json_kit.specs.Variants.{variant_of, only_member, is_unit, payload_part, payload_at};

use crate::NotAWorld;
use crate::from_json::{Fields, FromJson, below_key, here};
use serde_json::{Map, Value};
use std::alloc::Global;

/// A variant's name, and its payload where there is one.
#[derive(Clone, Copy)]
pub struct Variant<'a> {
    pub name: &'a str,
    pub payload: Option<&'a Value>,
}

/// The variant that a tree names.
pub fn variant_of<'a>(alloc: Global, tree: &'a Value) -> Result<Variant<'a>, NotAWorld>
    ensures { GivesBy (λ v. (v.name.now, option_map (λ part. view part.now) v.payload)) result (variant_of (view tree.now)) }
{
    match tree {
        Value::String(name) => Ok(Variant {
            name: name.as_str(),
            payload: None,
        }),
        Value::Object(members) => only_member(alloc, members),
        _ => Err(here(alloc)),
    }
}

/// The only member of an object.
#[tactic(auto, using(crate::proofs::Members::only_some, crate::proofs::Members::only_none))]
fn only_member<'a>(alloc: Global, members: &'a Map<String, Value>) -> Result<Variant<'a>, NotAWorld>
    ensures { GivesBy (λ v. (v.name.now, option_map (λ part. view part.now) v.payload)) result (found (only_member (members_view members.now.entries))) }
{
    if members.len() != 1 {
        return Err(here(alloc));
    }
    let (name, part) = members.first_key_value().ok_or_else(|| here(alloc))?;
    Ok(Variant {
        name: name.as_str(),
        payload: Some(part),
    })
}

impl<'a> Variant<'a> {
    /// Whether this is the variant with this name, without a payload.
    pub fn is(&self, name: &str) -> bool
        ensures { result ≡ is_unit name.now (self.now.name.now, option_map (λ part. view part.now) self.now.payload) }
    {
        self.name == name && self.payload.is_none()
    }

    /// The JSON value of the payload, if the variant has this name.
    pub fn part(&self, name: &str) -> Option<&'a Value>
        ensures { option_map (λ part. view part.now) result ≡ payload_part name.now (self.now.name.now, option_map (λ part. view part.now) self.now.payload) }
    {
        if self.name == name {
            self.payload
        } else {
            None
        }
    }

    /// The payload, if the variant has this name.
    pub fn payload<By, T: FromJson<By>>(
        &self,
        alloc: Global,
        name: &str,
    ) -> Result<Option<T>, NotAWorld>
        ensures { Gives result (payload_at name.now T.reads (self.now.name.now, option_map (λ part. view part.now) self.now.payload)) }
    {
        let Some(part) = self.part(name) else {
            return Ok(None);
        };
        let x = T::from_json(alloc, part).map_err(|fault| below_key(alloc, name, fault))?;
        Ok(Some(x))
    }

    /// The variant with named fields, if it has this name; its payload is the object of its fields.
    pub fn fields<F: Fields>(
        &self,
        alloc: Global,
        name: &str,
    ) -> Result<Option<F::Whole>, NotAWorld>
        ensures { Gives result (payload_at name.now F.reads (self.now.name.now, option_map (λ part. view part.now) self.now.payload)) }
    {
        let Some(part) = self.part(name) else {
            return Ok(None);
        };
        let x = F::read(alloc, part).map_err(|fault| below_key(alloc, name, fault))?;
        Ok(Some(x))
    }
}
