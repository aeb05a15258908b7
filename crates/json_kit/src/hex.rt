//! Bytes as pairs of hexadecimal digits in lower case.

ghost use Rattle.std.specs.Prelude.{◌≡◌};
ghost use Rattle.json_kit.specs.Fit.{Gives, found};
ghost use Rattle.json_kit.specs.Hex.{bytes_of, hex_byte, hex_bytes, hex_digit};

use crate::from_json::{FromJson, here};
use crate::{JsonKit, NotAWorld};
use serde_json::Value;
use std::alloc::Global;
use types::Bytes;

/// The value of a hexadecimal digit.
fn digit(c: u8) -> Option<u8>
    ensures { result ≡ hex_digit c }
{
    match c {
        b'0'..=b'9' => Some(c - b'0'),
        b'a'..=b'f' => Some(c - b'a' + 10),
        _ => None,
    }
}

/// The byte of two hexadecimal digits.
fn byte(high: u8, low: u8) -> Option<u8>
    ensures { result ≡ hex_byte high low }
{
    let high = digit(high)?;
    let low = digit(low)?;
    Some(16 * high + low)
}

/// The bytes of pairs of hexadecimal digits.
fn pairs(alloc: Global, digits: &[u8]) -> Result<Bytes, NotAWorld>
    ensures { Gives result (found (hex_bytes digits.now)) }
{
    if digits.len() % 2 != 0 {
        return Err(here(alloc));
    }
    let mut bytes = Bytes::new(alloc);
    for place in 0..digits.len() / 2 {
        match byte(digits[2 * place], digits[2 * place + 1]) {
            Some(x) => bytes.push(x)?,
            None => return Err(here(alloc)),
        }
    }
    Ok(bytes)
}

impl FromJson<JsonKit> for Bytes {
    ghost reads = { bytes_of };

    #[tactic(auto, unfolding(crate::specs::Hex::bytes_of))]
    fn from_json(alloc: Global, tree: &Value) -> Result<Bytes, NotAWorld> {
        let text = tree.as_str().ok_or_else(|| here(alloc))?;
        pairs(alloc, text.as_bytes())
    }
}
