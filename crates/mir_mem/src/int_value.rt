//! Numbers of the integer types.

ghost use Rattle.std.specs.Prelude.{◌≡◌, IsTrue, IsFalse, IsSome, IfSome, ◌↔◌, true, false, length};
ghost use Rattle.numbers.specs.Bytes.{is_width, number_of};
ghost use Rattle.mir_mem.specs.IntValue.{Reads};

use numbers::{is_width, word2, word4, word8, word16};

/// A number of an integer type.
#[derive(Clone, Copy, PartialEq, Eq, Debug)]
pub enum IntValue {
    I8(i8),
    U8(u8),
    I16(i16),
    U16(u16),
    I32(i32),
    U32(u32),
    I64(i64),
    U64(u64),
    I128(i128),
    U128(u128),
}

fn signed_value(bytes: &[u8]) -> IntValue
    requires { IsTrue (is_width (length bytes.now)) }
    ensures { Reads result true bytes.now }
{
    match bytes.len() {
        1 => IntValue::I8(bytes[0].cast_signed()),
        2 => IntValue::I16(word2(bytes).cast_signed()),
        4 => IntValue::I32(word4(bytes).cast_signed()),
        8 => IntValue::I64(word8(bytes).cast_signed()),
        _ => IntValue::I128(word16(bytes).cast_signed()),
    }
}

fn unsigned_value(bytes: &[u8]) -> IntValue
    requires { IsTrue (is_width (length bytes.now)) }
    ensures { Reads result false bytes.now }
{
    match bytes.len() {
        1 => IntValue::U8(bytes[0]),
        2 => IntValue::U16(word2(bytes)),
        4 => IntValue::U32(word4(bytes)),
        8 => IntValue::U64(word8(bytes)),
        _ => IntValue::U128(word16(bytes)),
    }
}

impl IntValue {
    /// The number of little-endian bytes, signed or unsigned, if an integer type has that width.
    pub fn from_bytes(bytes: &[u8], is_signed: bool) -> Option<IntValue>
        ensures some { IsSome result ↔ IsTrue (is_width (length bytes.now)) }
        ensures value { IfSome result (λ value. Reads value is_signed bytes.now) }
    {
        if !is_width(bytes.len()) {
            return None;
        }
        if is_signed {
            Some(signed_value(bytes))
        } else {
            Some(unsigned_value(bytes))
        }
    }
}
