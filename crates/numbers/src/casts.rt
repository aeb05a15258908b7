//! Casts between integers, truth values and characters.

ghost use Rattle.std.specs.Prelude.{◌≡◌, ◌≤◌, ◌&&◌, Some, length};
ghost use Rattle.numbers.specs.Bytes.{is_width};
ghost use Rattle.numbers.specs.Operators.{converted};
ghost use Rattle.numbers.specs.Computed.{answer_of, count_of};

use crate::kept::{low_bytes, low_digits};
use crate::read::{is_width, signed, unsigned};
use crate::{Computed, Kind};

/// Whether some integer types have `length` and `size` bytes.
fn are_widths(length: usize, size: usize) -> bool
    ensures { result ≡ (is_width length && is_width size) }
{
    is_width(length) && is_width(size)
}

/// The same for bytes that are an integer, a truth value or a character.
fn convert_number(kind: Kind, size: usize, bytes: &[u8]) -> Computed
    ensures answer { answer_of result ≡ converted (Some kind) size bytes.now }
    ensures count { count_of result ≤ 16 }
{
    if !are_widths(bytes.len(), size) {
        return Computed::Undefined;
    }
    match kind {
        Kind::Signed => low_bytes(size, signed(bytes)),
        _ => low_digits(size, unsigned(bytes)),
    }
}

/// A cast to a type of `size` bytes: as many low bytes of the number that the bytes are. A signed number keeps its sign in a larger type.
#[tactic(auto, unfolding(crate::specs::Operators::converted))]
pub fn convert(kind: Option<Kind>, size: usize, bytes: &[u8]) -> Computed
    ensures answer { answer_of result ≡ converted kind size bytes.now }
    ensures count { count_of result ≤ 16 }
{
    match kind {
        Some(kind) => convert_number(kind, size, bytes),
        None => Computed::Undefined,
    }
}
