//! The number that bytes are, and the word of a number that its type has.

ghost use Rattle.std.specs.Prelude.{◌≡◌, ◌+◌, ◌^◌, ◌<◌, ◌↔◌, ◌≤ℤ◌, IsTrue, IfSome, length, true};
ghost use Rattle.numbers.specs.Bytes.{value_of, number_of, holds, low_digits, low_bytes};
ghost use Rattle.mir_ops.specs.Made.{bytes_in};

use crate::made::Size;
use numbers::{word2, word4, word8, word16};

/// The unsigned number that bytes are.
pub(crate) fn unsigned(size: Size, bytes: &[u8]) -> u64
    requires { length bytes.now ≡ bytes_in size }
    ensures value { result ≡ value_of bytes.now }
    ensures below { result < 256 ^ bytes_in size }
{
    match size {
        Size::One => bytes[0] as u64,
        Size::Two => word2(bytes) as u64,
        Size::Four => word4(bytes) as u64,
        Size::Eight => word8(bytes),
    }
}

/// The signed number that bytes are.
pub(crate) fn signed(size: Size, bytes: &[u8]) -> i64
    requires { length bytes.now ≡ bytes_in size }
    ensures { result ≡ number_of true bytes.now }
{
    match size {
        Size::One => bytes[0].cast_signed() as i64,
        Size::Two => word2(bytes).cast_signed() as i64,
        Size::Four => word4(bytes).cast_signed() as i64,
        Size::Eight => word8(bytes).cast_signed(),
    }
}

/// The signed number that 16 bytes are.
pub(crate) fn wide_signed(bytes: &[u8]) -> i128
    requires { length bytes.now ≡ 16 }
    ensures { result ≡ number_of true bytes.now }
{
    word16(bytes).cast_signed()
}

/// The greatest unsigned number of a size.
fn greatest(size: Size) -> u64
    ensures { result + 1 ≡ 256 ^ bytes_in size }
{
    match size {
        Size::One => 0xff,
        Size::Two => 0xffff,
        Size::Four => 0xffff_ffff,
        Size::Eight => 0xffff_ffff_ffff_ffff,
    }
}

/// The word of a number, where the unsigned type of a size has the number.
pub(crate) fn kept_unsigned(size: Size, value: u64) -> Option<u64>
    ensures { IfSome result (λ word. (word ≡ value) × (value < 256 ^ bytes_in size)) }
{
    if value <= greatest(size) {
        Some(value)
    } else {
        None
    }
}

/// Whether a number is one of those from the least to the greatest.
fn is_between(value: i64, least: i64, greatest: i64) -> bool
    ensures { IsTrue result ↔ ((least ≤ℤ value) × (value ≤ℤ greatest)) }
{
    least <= value && value <= greatest
}

/// Whether the signed type of a size has a number.
fn holds_signed(size: Size, value: i64) -> bool
    ensures { result ≡ holds true (bytes_in size) value }
{
    match size {
        Size::One => is_between(value, -0x80, 0x7f),
        Size::Two => is_between(value, -0x8000, 0x7fff),
        Size::Four => is_between(value, -0x8000_0000, 0x7fff_ffff),
        Size::Eight => true,
    }
}

/// The word of a number, in two's complement, where the signed type of a size has the number.
pub(crate) fn kept_signed(size: Size, value: i64) -> Option<u64>
    ensures { IfSome result (λ word. (holds true (bytes_in size) value ≡ true) × (low_digits (bytes_in size) word ≡ low_bytes (bytes_in size) value)) }
{
    if holds_signed(size, value) {
        Some(value.cast_unsigned())
    } else {
        None
    }
}

/// The word of a signed number of 16 bytes, in two's complement.
pub(crate) fn wide_word(value: i128) -> u128
    ensures { (holds true 16 value ≡ true) × (low_digits 16 result ≡ low_bytes 16 value) }
{
    value.cast_unsigned()
}
