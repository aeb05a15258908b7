//! Arithmetic on numbers of one integer type, by std.

use crate::IntValue;
use std::ops::{BitAnd, BitOr, BitXor};

impl IntValue {
    ghost use Rattle.std.specs.Prelude.{◌≡◌, ◌≢◌, ◌*◌, ◌^◌, ◌%◌, ◌<◌, pos, ◌+ℤ◌, ◌-ℤ◌, ◌*ℤ◌, int_div, int_rem, unsigned_abs};
    ghost use Rattle.std.specs.Int.{FitsUnsignedBits, int_shr};
    ghost use Rattle.std.specs.Option.{SomeIff};
    ghost use Rattle.mir_mem.specs.IntValue.{IsSameType, TypeHolds, bits_in, number_in, width_in, with_bits, with_number};

    /// The sum, if it fits the type.
    pub fn checked_add(self, other: IntValue) -> Option<IntValue>
        requires { IsSameType self other }
        ensures { SomeIff result (TypeHolds self (number_in self +ℤ number_in other)) (with_number self (number_in self +ℤ number_in other)) }
    {
        if self.is_signed() {
            let sum = self.signed().checked_add(other.signed())?;
            self.with_signed(sum)
        } else {
            let sum = self.unsigned().checked_add(other.unsigned())?;
            self.with_unsigned(sum)
        }
    }

    /// The difference, if it fits the type.
    pub fn checked_sub(self, other: IntValue) -> Option<IntValue>
        requires { IsSameType self other }
        ensures { SomeIff result (TypeHolds self (number_in self -ℤ number_in other)) (with_number self (number_in self -ℤ number_in other)) }
    {
        if self.is_signed() {
            let difference = self.signed().checked_sub(other.signed())?;
            self.with_signed(difference)
        } else {
            let difference = self.unsigned().checked_sub(other.unsigned())?;
            self.with_unsigned(difference)
        }
    }

    /// The product, if it fits the type.
    pub fn checked_mul(self, other: IntValue) -> Option<IntValue>
        requires { IsSameType self other }
        ensures { SomeIff result (TypeHolds self (number_in self *ℤ number_in other)) (with_number self (number_in self *ℤ number_in other)) }
    {
        if self.is_signed() {
            let product = self.signed().checked_mul(other.signed())?;
            self.with_signed(product)
        } else {
            let product = self.unsigned().checked_mul(other.unsigned())?;
            self.with_unsigned(product)
        }
    }

    /// The quotient without its fraction, if the divisor is not 0 and it fits the type.
    pub fn checked_div(self, other: IntValue) -> Option<IntValue>
        requires { IsSameType self other }
        ensures { SomeIff result ((number_in other ≢ pos 0) × TypeHolds self (int_div (number_in self) (number_in other))) (with_number self (int_div (number_in self) (number_in other))) }
    {
        if self.is_signed() {
            let quotient = self.signed().checked_div(other.signed())?;
            self.with_signed(quotient)
        } else {
            let quotient = self.unsigned().checked_div(other.unsigned())?;
            self.with_unsigned(quotient)
        }
    }

    /// The remainder, with the sign of `self`, if the divisor is not 0 and the quotient fits the type.
    pub fn checked_rem(self, other: IntValue) -> Option<IntValue>
        requires { IsSameType self other }
        ensures { SomeIff result ((number_in other ≢ pos 0) × TypeHolds self (int_div (number_in self) (number_in other))) (with_number self (int_rem (number_in self) (number_in other))) }
    {
        if self.is_signed() {
            let number = self.signed();
            let divisor = other.signed();
            let quotient = number.checked_div(divisor)?;
            self.with_signed(quotient)?;
            self.with_signed(number % divisor)
        } else {
            let number = self.unsigned();
            let remainder = number.checked_rem(other.unsigned())?;
            self.with_unsigned(remainder)
        }
    }

    /// The bits shifted left by an amount below the type's width; those past its end are lost.
    pub fn checked_shl(self, amount: u32) -> Option<IntValue>
        ensures { SomeIff result (amount < width_in self) (with_bits self (bits_in self * 2 ^ amount % 2 ^ width_in self)) }
    {
        if amount < self.width() {
            Some(self.with_bits(self.low_bits(self.bits() << amount)))
        } else {
            None
        }
    }

    /// The number shifted right, that is divided by a power of two and rounded down, for an amount below the
    /// type's width.
    pub fn checked_shr(self, amount: u32) -> Option<IntValue>
        ensures { SomeIff result (amount < width_in self) (with_number self (int_shr (number_in self) amount)) }
    {
        if amount >= self.width() {
            return None;
        }
        if self.is_signed() {
            self.with_signed(self.signed() >> amount)
        } else {
            self.with_unsigned(self.unsigned() >> amount)
        }
    }

    /// The number, if it fits a `u32`.
    pub fn as_u32(self) -> Option<u32>
        ensures { SomeIff result (FitsUnsignedBits 32 (number_in self)) (unsigned_abs (number_in self)) }
    {
        if self.is_signed() {
            u32::try_from(self.signed()).ok()
        } else {
            u32::try_from(self.unsigned()).ok()
        }
    }
}

/// The bits that are set in both.
impl BitAnd for IntValue {
    ghost use Rattle.std.specs.Prelude.{◌≡◌, bit_and};
    ghost use Rattle.mir_mem.specs.IntValue.{IsSameType, bits_in, with_bits};

    type Output = IntValue;

    ghost can_bitand = { λ one other. IsSameType one other };

    ghost bitand_gives = { λ one other result. result ≡ with_bits one (bit_and (bits_in one) (bits_in other)) };

    fn bitand(self, rhs: IntValue) -> IntValue {
        self.with_bits(self.bits() & rhs.bits())
    }
}

/// The bits that are set in one or both.
impl BitOr for IntValue {
    ghost use Rattle.std.specs.Prelude.{◌≡◌, bit_or};
    ghost use Rattle.mir_mem.specs.IntValue.{IsSameType, bits_in, with_bits};

    type Output = IntValue;

    ghost can_bitor = { λ one other. IsSameType one other };

    ghost bitor_gives = { λ one other result. result ≡ with_bits one (bit_or (bits_in one) (bits_in other)) };

    fn bitor(self, rhs: IntValue) -> IntValue {
        self.with_bits(self.bits() | rhs.bits())
    }
}

/// The bits that are set in exactly one.
impl BitXor for IntValue {
    ghost use Rattle.std.specs.Prelude.{◌≡◌, bit_xor};
    ghost use Rattle.mir_mem.specs.IntValue.{IsSameType, bits_in, with_bits};

    type Output = IntValue;

    ghost can_bitxor = { λ one other. IsSameType one other };

    ghost bitxor_gives = { λ one other result. result ≡ with_bits one (bit_xor (bits_in one) (bits_in other)) };

    fn bitxor(self, rhs: IntValue) -> IntValue {
        self.with_bits(self.bits() ^ rhs.bits())
    }
}
