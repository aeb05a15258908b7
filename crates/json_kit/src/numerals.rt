//! Numbers of 128 bits as strings of decimal digits.

ghost use Rattle.std.specs.Prelude.{◌≡◌, ◌≢◌, ◌≤◌, drop, length, slice_index, true};
ghost use Rattle.json_kit.specs.Fit.{found};
ghost use Rattle.json_kit.specs.Numerals.{begins_plainly, u128_of, i128_of, unsigned_of, negative_of, nonnegative_of, signed_of};

use crate::from_json::{FromJson, here};
use crate::{JsonKit, NotAWorld};
use serde_json::Value;
use std::alloc::Global;

/// Whether the bytes are not empty and begin neither with a sign nor with a 0 before another byte.
fn begins_plainly(bytes: &[u8]) -> bool
    ensures { result ≡ begins_plainly bytes.now }
{
    !bytes.is_empty()
        && bytes[0] != b'+'
        && bytes[0] != b'-'
        && (bytes.len() == 1 || bytes[0] != b'0')
}

/// The `u128` of a text of digits.
fn unsigned(text: &str) -> Option<u128>
    ensures { found result ≡ unsigned_of text.now }
{
    if begins_plainly(text.as_bytes()) {
        unsigned_digits(text)
    } else {
        None
    }
}

/// The `u128` of a text, if all its bytes are digits.
fn unsigned_digits(text: &str) -> Option<u128>
    requires { begins_plainly text.now ≡ true }
    ensures { found result ≡ unsigned_of text.now }
{
    text.parse::<u128>().ok()
}

/// The `i128` of a text of digits.
fn nonnegative(text: &str) -> Option<i128>
    ensures { found result ≡ nonnegative_of text.now }
{
    if begins_plainly(text.as_bytes()) {
        signed_digits(text)
    } else {
        None
    }
}

/// The `i128` of a text, if all its bytes are digits.
fn signed_digits(text: &str) -> Option<i128>
    requires { begins_plainly text.now ≡ true }
    ensures { found result ≡ nonnegative_of text.now }
{
    text.parse::<i128>().ok()
}

/// The `i128` of a text that is a minus and digits.
fn negative(text: &str) -> Option<i128>
    requires { slice_index text.now 0 ≡ 45 }
    ensures { found result ≡ negative_of (drop 1 text.now) }
{
    let bytes = text.as_bytes();
    if bytes.len() < 2 || bytes[1] == b'0' {
        return None;
    }
    negative_digits(text)
}

/// The `i128` of a text, if all bytes behind the minus are digits.
fn negative_digits(text: &str) -> Option<i128>
    requires minus { slice_index text.now 0 ≡ 45 }
    requires more { 2 ≤ length text.now }
    requires above { slice_index text.now 1 ≢ 48 }
    ensures { found result ≡ negative_of (drop 1 text.now) }
{
    text.parse::<i128>().ok()
}

/// The `i128` of a text of digits, perhaps with a minus before them.
fn signed(text: &str) -> Option<i128>
    ensures { found result ≡ signed_of text.now }
{
    if text.as_bytes().first() == Some(&b'-') {
        negative(text)
    } else {
        nonnegative(text)
    }
}

impl FromJson<JsonKit> for u128 {
    ghost reads = { u128_of };

    fn from_json(alloc: Global, tree: &Value) -> Result<u128, NotAWorld> {
        tree.as_str().and_then(unsigned).ok_or_else(|| here(alloc))
    }
}

impl FromJson<JsonKit> for i128 {
    ghost reads = { i128_of };

    fn from_json(alloc: Global, tree: &Value) -> Result<i128, NotAWorld> {
        tree.as_str().and_then(signed).ok_or_else(|| here(alloc))
    }
}
