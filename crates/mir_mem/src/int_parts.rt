//! The parts of numbers of the integer types: their numbers and their bits.

use crate::IntValue;

impl IntValue {
    ghost use Rattle.std.specs.Prelude.{◌≡◌, ◌*◌, ◌^◌, ◌%◌, ◌<◌, true, false, pos};
    ghost use Rattle.std.specs.Option.{SomeIff};
    ghost use Rattle.mir_mem.specs.IntValue.{number_in, is_signed_in, TypeHolds, with_number, bits_in, with_bits, width_in};

    /// Whether its type is signed.
    pub(crate) fn is_signed(self) -> bool
        ensures { result ≡ is_signed_in self }
    {
        match self {
            IntValue::I8(_) => true,
            IntValue::U8(_) => false,
            IntValue::I16(_) => true,
            IntValue::U16(_) => false,
            IntValue::I32(_) => true,
            IntValue::U32(_) => false,
            IntValue::I64(_) => true,
            IntValue::U64(_) => false,
            IntValue::I128(_) => true,
            IntValue::U128(_) => false,
        }
    }

    /// The number of a value of a signed type.
    pub(crate) fn signed(self) -> i128
        requires { is_signed_in self ≡ true }
        ensures number { result ≡ number_in self }
        ensures range { TypeHolds self result }
    {
        match self {
            IntValue::I8(number) => number as i128,
            IntValue::I16(number) => number as i128,
            IntValue::I32(number) => number as i128,
            IntValue::I64(number) => number as i128,
            IntValue::I128(number) => number,
            _ => 0,
        }
    }

    /// The number of a value of an unsigned type.
    pub(crate) fn unsigned(self) -> u128
        requires { is_signed_in self ≡ false }
        ensures number { pos result ≡ number_in self }
        ensures range { TypeHolds self (pos result) }
    {
        match self {
            IntValue::U8(number) => number as u128,
            IntValue::U16(number) => number as u128,
            IntValue::U32(number) => number as u128,
            IntValue::U64(number) => number as u128,
            IntValue::U128(number) => number,
            _ => 0,
        }
    }

    /// The value of the same signed type with this number, if it fits.
    pub(crate) fn with_signed(self, number: i128) -> Option<IntValue>
        requires { is_signed_in self ≡ true }
        ensures { SomeIff result (TypeHolds self number) (with_number self number) }
    {
        match self {
            IntValue::I8(_) => match i8::try_from(number) {
                Ok(number) => Some(IntValue::I8(number)),
                Err(_) => None,
            },
            IntValue::I16(_) => match i16::try_from(number) {
                Ok(number) => Some(IntValue::I16(number)),
                Err(_) => None,
            },
            IntValue::I32(_) => match i32::try_from(number) {
                Ok(number) => Some(IntValue::I32(number)),
                Err(_) => None,
            },
            IntValue::I64(_) => match i64::try_from(number) {
                Ok(number) => Some(IntValue::I64(number)),
                Err(_) => None,
            },
            IntValue::I128(_) => Some(IntValue::I128(number)),
            _ => None,
        }
    }

    /// The value of the same unsigned type with this number, if it fits.
    pub(crate) fn with_unsigned(self, number: u128) -> Option<IntValue>
        requires { is_signed_in self ≡ false }
        ensures { SomeIff result (TypeHolds self (pos number)) (with_number self (pos number)) }
    {
        match self {
            IntValue::U8(_) => match u8::try_from(number) {
                Ok(number) => Some(IntValue::U8(number)),
                Err(_) => None,
            },
            IntValue::U16(_) => match u16::try_from(number) {
                Ok(number) => Some(IntValue::U16(number)),
                Err(_) => None,
            },
            IntValue::U32(_) => match u32::try_from(number) {
                Ok(number) => Some(IntValue::U32(number)),
                Err(_) => None,
            },
            IntValue::U64(_) => match u64::try_from(number) {
                Ok(number) => Some(IntValue::U64(number)),
                Err(_) => None,
            },
            IntValue::U128(_) => Some(IntValue::U128(number)),
            _ => None,
        }
    }

    /// How many bits its type has.
    pub(crate) fn width(self) -> u32
        ensures { result ≡ width_in self }
    {
        match self {
            IntValue::I8(_) => 8,
            IntValue::U8(_) => 8,
            IntValue::I16(_) => 16,
            IntValue::U16(_) => 16,
            IntValue::I32(_) => 32,
            IntValue::U32(_) => 32,
            IntValue::I64(_) => 64,
            IntValue::U64(_) => 64,
            IntValue::I128(_) => 128,
            IntValue::U128(_) => 128,
        }
    }

    /// Its bits, as an unsigned number.
    pub(crate) fn bits(self) -> u128
        ensures bits { result ≡ bits_in self }
        ensures range { result < 2 ^ width_in self }
    {
        match self {
            IntValue::I8(number) => number.cast_unsigned() as u128,
            IntValue::U8(number) => number as u128,
            IntValue::I16(number) => number.cast_unsigned() as u128,
            IntValue::U16(number) => number as u128,
            IntValue::I32(number) => number.cast_unsigned() as u128,
            IntValue::U32(number) => number as u128,
            IntValue::I64(number) => number.cast_unsigned() as u128,
            IntValue::U64(number) => number as u128,
            IntValue::I128(number) => number.cast_unsigned(),
            IntValue::U128(number) => number,
        }
    }

    /// The value of the same type with these bits.
    pub(crate) fn with_bits(self, bits: u128) -> IntValue
        requires { bits < 2 ^ width_in self }
        ensures { result ≡ with_bits self bits }
    {
        match self {
            IntValue::I8(_) => IntValue::I8((bits as u8).cast_signed()),
            IntValue::U8(_) => IntValue::U8(bits as u8),
            IntValue::I16(_) => IntValue::I16((bits as u16).cast_signed()),
            IntValue::U16(_) => IntValue::U16(bits as u16),
            IntValue::I32(_) => IntValue::I32((bits as u32).cast_signed()),
            IntValue::U32(_) => IntValue::U32(bits as u32),
            IntValue::I64(_) => IntValue::I64((bits as u64).cast_signed()),
            IntValue::U64(_) => IntValue::U64(bits as u64),
            IntValue::I128(_) => IntValue::I128(bits.cast_signed()),
            IntValue::U128(_) => IntValue::U128(bits),
        }
    }

    /// The lowest bits, as many as its type has.
    pub(crate) fn low_bits(self, bits: u128) -> u128
        ensures { result ≡ bits % 2 ^ width_in self }
    {
        match self.width() {
            8 => bits % 0x100,
            16 => bits % 0x1_0000,
            32 => bits % 0x1_0000_0000,
            64 => bits % 0x1_0000_0000_0000_0000,
            _ => bits,
        }
    }
}
