//! Numbers, texts and booleans.

ghost use Rattle.std.specs.Prelude.{false};

use crate::from_json::{FromJson, MayBeAbsent, here};
use crate::{JsonKit, NotAWorld};
use serde_json::Value;
use std::alloc::Global;
use types::Text;

impl FromJson<JsonKit> for u32 {
    ghost use Rattle.json_kit.specs.Scalars.{u32_of};

    ghost reads = { u32_of };

    fn from_json(alloc: Global, tree: &Value) -> Result<u32, NotAWorld> {
        let n = tree.as_u64().ok_or_else(|| here(alloc))?;
        u32::try_from(n).map_err(|_| here(alloc))
    }
}

impl FromJson<JsonKit> for u64 {
    ghost use Rattle.json_kit.specs.Scalars.{u64_of};

    ghost reads = { u64_of };

    fn from_json(alloc: Global, tree: &Value) -> Result<u64, NotAWorld> {
        tree.as_u64().ok_or_else(|| here(alloc))
    }
}

impl FromJson<JsonKit> for bool {
    ghost use Rattle.json_kit.specs.Scalars.{bool_of};

    ghost reads = { bool_of };

    fn from_json(alloc: Global, tree: &Value) -> Result<bool, NotAWorld> {
        tree.as_bool().ok_or_else(|| here(alloc))
    }
}

impl<By> MayBeAbsent<By> for bool {
    ghost left_out = { false };

    fn absent(_alloc: Global) -> bool {
        false
    }
}

impl FromJson<JsonKit> for Text {
    ghost use Rattle.json_kit.specs.Scalars.{text_of};

    ghost reads = { text_of };

    fn from_json(alloc: Global, tree: &Value) -> Result<Text, NotAWorld> {
        let text = tree.as_str().ok_or_else(|| here(alloc))?;
        Ok(Text::from_str(alloc, text)?)
    }
}
