//! Results in the bytes of their type.

ghost use Rattle.std.specs.Prelude.{◌≡◌, ℕ, ◌≤◌, IsTrue, true, false, pos, ◌↔◌, ◌≤ℤ◌};
ghost use Rattle.numbers.specs.Bytes.{is_width, holds, low_digits, low_bytes};
ghost use Rattle.numbers.specs.Operators.{Computes, kept, truth_value};
ghost use Rattle.numbers.specs.Computed.{answer_of, count_of};

use crate::Operator;

/// What an operator makes of its operands: that many of the bytes, a panic, or no meaning.
#[derive(Clone, Copy)]
pub enum Computed {
    Bytes([u8; 16], u8),
    Panics(Operator),
    Undefined,
}

pub(crate) fn holds_unsigned(size: usize, value: u128) -> bool
    requires { IsTrue (is_width size) }
    ensures { result ≡ holds false size (pos value) }
{
    match size {
        1 => value <= 0xff,
        2 => value <= 0xffff,
        4 => value <= 0xffff_ffff,
        8 => value <= 0xffff_ffff_ffff_ffff,
        _ => true,
    }
}

fn is_between(value: i128, least: i128, greatest: i128) -> bool
    ensures { IsTrue result ↔ ((least ≤ℤ value) × (value ≤ℤ greatest)) }
{
    least <= value && value <= greatest
}

pub(crate) fn holds_signed(size: usize, value: i128) -> bool
    requires { IsTrue (is_width size) }
    ensures { result ≡ holds true size value }
{
    match size {
        1 => is_between(value, -0x80, 0x7f),
        2 => is_between(value, -0x8000, 0x7fff),
        4 => is_between(value, -0x8000_0000, 0x7fff_ffff),
        8 => is_between(value, -0x8000_0000_0000_0000, 0x7fff_ffff_ffff_ffff),
        _ => true,
    }
}

/// The lowest bytes of a natural number.
pub(crate) fn low_digits(size: usize, value: u128) -> Computed
    requires { size ≤ 16 }
    ensures answer { answer_of result ≡ Computes (low_digits size value) }
    ensures count { count_of result ≤ 16 }
{
    Computed::Bytes(value.to_le_bytes(), size as u8)
}

/// The lowest bytes of a number in two's complement.
pub(crate) fn low_bytes(size: usize, value: i128) -> Computed
    requires { size ≤ 16 }
    ensures answer { answer_of result ≡ Computes (low_bytes size value) }
    ensures count { count_of result ≤ 16 }
{
    Computed::Bytes(value.cast_unsigned().to_le_bytes(), size as u8)
}

/// A result in its unsigned type, or a panic where that does not hold it.
pub(crate) fn kept_unsigned(op: Operator, size: usize, value: u128) -> Computed
    requires { IsTrue (is_width size) }
    ensures answer { answer_of result ≡ kept op false size (pos value) }
    ensures count { count_of result ≤ 16 }
{
    if holds_unsigned(size, value) {
        low_digits(size, value)
    } else {
        Computed::Panics(op)
    }
}

/// A result in its signed type, or a panic where that does not hold it.
pub(crate) fn kept_signed(op: Operator, size: usize, value: i128) -> Computed
    requires { IsTrue (is_width size) }
    ensures answer { answer_of result ≡ kept op true size value }
    ensures count { count_of result ≤ 16 }
{
    if holds_signed(size, value) {
        low_bytes(size, value)
    } else {
        Computed::Panics(op)
    }
}

/// One byte, 1 for true.
pub(crate) fn truth_value(truth: bool) -> Computed
    ensures answer { answer_of result ≡ truth_value truth }
    ensures count { count_of result ≤ 16 }
{
    low_digits(1, truth as u128)
}
