//! Casts of numbers of at most 8 bytes, and shifts of one such number by another.

ghost use Rattle.std.specs.Prelude.{◌≡◌, ◌*◌, ◌<◌, ◌≤◌, ℕ, length, pos, IfSome, Some};
ghost use Rattle.numbers.specs.Bytes.{low_bytes, low_digits, number_of};
ghost use Rattle.numbers.specs.Operators.{Computes, computed, converted, is_signed, shifted, sign_of};
ghost use Rattle.mir_ops.specs.Made.{bytes_in, made_bytes};

use crate::Made;
use crate::made::{Size, word_of};
use crate::words::{signed, unsigned};
use numbers::{Kind, Operator};

/// The number that bytes of a kind are, as a word: in two's complement if the kind is signed.
#[inline(always)]
fn word(kind: Kind, size: Size, bytes: &[u8]) -> u64
    requires { length bytes.now ≡ bytes_in size }
    ensures { (count : ℕ) → count ≤ 8 → low_digits count result ≡ low_bytes count (number_of (is_signed kind) bytes.now) }
{
    match kind {
        Kind::Signed => signed(size, bytes).cast_unsigned(),
        _ => unsigned(size, bytes),
    }
}

/// What a cast to a type of so many bytes makes of a number, a truth value or a character. There is none where one of the two has no
/// size of 1, 2, 4 or 8 bytes.
#[inline(always)]
pub fn converted_of(kind: Kind, size: usize, bytes: &[u8]) -> Option<Made>
    ensures { IfSome result (λ made. converted (Some kind) size bytes.now ≡ Computes (made_bytes made)) }
{
    let to = Size::of(size)?;
    let from = Size::of(bytes.len())?;
    Some(word_of(to, word(kind, from, bytes)))
}

/// Whether an integer of a kind is signed, where the kind is one of integers.
#[inline(always)]
#[tactic(auto, unfolding(numbers::specs::Operators::sign_of, numbers::specs::Operators::is_signed))]
fn sign_of(kind: Kind) -> Option<bool>
    ensures { IfSome result (λ sign. sign_of (Some kind) ≡ Some sign) }
{
    match kind {
        Kind::Signed => Some(true),
        Kind::Unsigned => Some(false),
        Kind::Boolean => None,
        Kind::Character => None,
    }
}

/// The amount of a shift, where it is a number from 0 to below the number of bits.
#[inline(always)]
fn amount(is_signed: bool, size: Size, bytes: &[u8], bits: u32) -> Option<u32>
    requires { length bytes.now ≡ bytes_in size }
    ensures { IfSome result (λ amount. (number_of is_signed bytes.now ≡ pos amount) × (amount < bits)) }
{
    if is_signed {
        let number = signed(size, bytes);
        if 0 <= number && number < bits as i64 {
            Some(number as u32)
        } else {
            None
        }
    } else {
        let number = unsigned(size, bytes);
        if number < bits as u64 {
            Some(number as u32)
        } else {
            None
        }
    }
}

/// The bits of a number that are shifted up or down. There is none for an operator that is no shift.
#[inline(always)]
fn shifted(op: Operator, is_signed: bool, size: Size, bytes: &[u8], amount: u32) -> Option<Made>
    requires long { length bytes.now ≡ bytes_in size }
    requires amount { amount < 8 * length bytes.now }
    ensures { IfSome result (λ made. shifted op is_signed bytes.now amount ≡ Computes (made_bytes made)) }
{
    match op {
        Operator::Shl => Some(word_of(size, unsigned(size, bytes) << amount)),
        Operator::Shr => {
            if is_signed {
                Some(word_of(size, (signed(size, bytes) >> amount).cast_unsigned()))
            } else {
                Some(word_of(size, unsigned(size, bytes) >> amount))
            }
        }
        _ => None,
    }
}

/// What a shift makes of an integer and the amount that another one is, of any two integer types of at most 8 bytes. There is none where the shift
/// panics, and for an operator that is no shift. It stays out of code that calls it, which has other operators too.
#[inline(never)]
pub(crate) fn shifted_of(
    op: Operator,
    kind: Kind,
    by: Kind,
    left: &[u8],
    right: &[u8],
) -> Option<Made>
    ensures { IfSome result (λ made. computed op (Some kind) (Some by) left.now right.now ≡ Computes (made_bytes made)) }
{
    let is_signed = sign_of(kind)?;
    let is_signed_amount = sign_of(by)?;
    let size = Size::of(left.len())?;
    let amount_size = Size::of(right.len())?;
    let amount = amount(is_signed_amount, amount_size, right, 8 * left.len() as u32)?;
    shifted(op, is_signed, size, left, amount)
}
