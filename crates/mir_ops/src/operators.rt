//! Operators on two operands of one kind.

ghost use Rattle.std.specs.Prelude.{◌≡◌, length, IfSome, Some, true, false};
ghost use Rattle.numbers.specs.Operators.{Computes, computed, on_integers};
ghost use Rattle.numbers.specs.declared.operator.Kind.TheVariants as Kind;
ghost use Rattle.mir_ops.specs.Made.{bytes_in, made_bytes};

use crate::Made;
use crate::made::{Size, word_of};
use crate::shifts::shifted_of;
use crate::words::{kept_signed, kept_unsigned, signed, unsigned, wide_signed, wide_word};
use numbers::{Kind, Operator, word16};

/// What an operator makes of two unsigned numbers of one size. There is none for a shift, and where the operator panics.
#[inline(always)]
fn on_unsigned(op: Operator, size: Size, left: &[u8], right: &[u8]) -> Option<Made>
    requires left { length left.now ≡ bytes_in size }
    requires right { length right.now ≡ bytes_in size }
    ensures { IfSome result (λ made. on_integers op false left.now right.now ≡ Computes (made_bytes made)) }
{
    let x = unsigned(size, left);
    let y = unsigned(size, right);
    match op {
        Operator::Add => Some(word_of(size, kept_unsigned(size, x.checked_add(y)?)?)),
        Operator::Sub => Some(word_of(size, x.checked_sub(y)?)),
        Operator::Mul => Some(word_of(size, kept_unsigned(size, x.checked_mul(y)?)?)),
        Operator::Div => Some(word_of(size, x.checked_div(y)?)),
        Operator::Rem => Some(word_of(size, x.checked_rem(y)?)),
        Operator::BitXor => Some(word_of(size, x ^ y)),
        Operator::BitAnd => Some(word_of(size, x & y)),
        Operator::BitOr => Some(word_of(size, x | y)),
        Operator::Shl => None,
        Operator::Shr => None,
        Operator::Eq => Some(Made::Truth(x == y)),
        Operator::Lt => Some(Made::Truth(x < y)),
        Operator::Le => Some(Made::Truth(x <= y)),
        Operator::Ne => Some(Made::Truth(x != y)),
        Operator::Ge => Some(Made::Truth(y <= x)),
        Operator::Gt => Some(Made::Truth(y < x)),
    }
}

/// What an operator makes of two unsigned numbers of 16 bytes. There is none for a shift, and where the operator panics.
#[inline(never)]
fn on_wide_unsigned(op: Operator, left: &[u8], right: &[u8]) -> Option<Made>
    requires left { length left.now ≡ 16 }
    requires right { length right.now ≡ 16 }
    ensures { IfSome result (λ made. on_integers op false left.now right.now ≡ Computes (made_bytes made)) }
{
    let x = word16(left);
    let y = word16(right);
    match op {
        Operator::Add => Some(Made::WideWord(x.checked_add(y)?)),
        Operator::Sub => Some(Made::WideWord(x.checked_sub(y)?)),
        Operator::Mul => Some(Made::WideWord(x.checked_mul(y)?)),
        Operator::Div => Some(Made::WideWord(x.checked_div(y)?)),
        Operator::Rem => Some(Made::WideWord(x.checked_rem(y)?)),
        Operator::BitXor => Some(Made::WideWord(x ^ y)),
        Operator::BitAnd => Some(Made::WideWord(x & y)),
        Operator::BitOr => Some(Made::WideWord(x | y)),
        Operator::Shl => None,
        Operator::Shr => None,
        Operator::Eq => Some(Made::Truth(x == y)),
        Operator::Lt => Some(Made::Truth(x < y)),
        Operator::Le => Some(Made::Truth(x <= y)),
        Operator::Ne => Some(Made::Truth(x != y)),
        Operator::Ge => Some(Made::Truth(y <= x)),
        Operator::Gt => Some(Made::Truth(y < x)),
    }
}

/// What an operator makes of two signed numbers of one size. There is none for a shift, and where the operator panics.
#[inline(always)]
fn on_signed(op: Operator, size: Size, left: &[u8], right: &[u8]) -> Option<Made>
    requires left { length left.now ≡ bytes_in size }
    requires right { length right.now ≡ bytes_in size }
    ensures { IfSome result (λ made. on_integers op true left.now right.now ≡ Computes (made_bytes made)) }
{
    let x = signed(size, left);
    let y = signed(size, right);
    match op {
        Operator::Add => Some(word_of(size, kept_signed(size, x.checked_add(y)?)?)),
        Operator::Sub => Some(word_of(size, kept_signed(size, x.checked_sub(y)?)?)),
        Operator::Mul => Some(word_of(size, kept_signed(size, x.checked_mul(y)?)?)),
        Operator::Div => Some(word_of(size, kept_signed(size, x.checked_div(y)?)?)),
        Operator::Rem => {
            kept_signed(size, x.checked_div(y)?)?;
            Some(word_of(size, kept_signed(size, x.checked_rem(y)?)?))
        }
        Operator::BitXor => on_unsigned(op, size, left, right),
        Operator::BitAnd => on_unsigned(op, size, left, right),
        Operator::BitOr => on_unsigned(op, size, left, right),
        Operator::Shl => None,
        Operator::Shr => None,
        Operator::Eq => Some(Made::Truth(x == y)),
        Operator::Lt => Some(Made::Truth(x < y)),
        Operator::Le => Some(Made::Truth(x <= y)),
        Operator::Ne => Some(Made::Truth(x != y)),
        Operator::Ge => Some(Made::Truth(y <= x)),
        Operator::Gt => Some(Made::Truth(y < x)),
    }
}

/// What an operator makes of two signed numbers of 16 bytes. There is none for a shift, and where the operator panics.
#[inline(never)]
fn on_wide_signed(op: Operator, left: &[u8], right: &[u8]) -> Option<Made>
    requires left { length left.now ≡ 16 }
    requires right { length right.now ≡ 16 }
    ensures { IfSome result (λ made. on_integers op true left.now right.now ≡ Computes (made_bytes made)) }
{
    let x = wide_signed(left);
    let y = wide_signed(right);
    match op {
        Operator::Add => Some(Made::WideWord(wide_word(x.checked_add(y)?))),
        Operator::Sub => Some(Made::WideWord(wide_word(x.checked_sub(y)?))),
        Operator::Mul => Some(Made::WideWord(wide_word(x.checked_mul(y)?))),
        Operator::Div => Some(Made::WideWord(wide_word(x.checked_div(y)?))),
        Operator::Rem => Some(Made::WideWord(wide_word(x.checked_rem(y)?))),
        Operator::BitXor => on_wide_unsigned(op, left, right),
        Operator::BitAnd => on_wide_unsigned(op, left, right),
        Operator::BitOr => on_wide_unsigned(op, left, right),
        Operator::Shl => None,
        Operator::Shr => None,
        Operator::Eq => Some(Made::Truth(x == y)),
        Operator::Lt => Some(Made::Truth(x < y)),
        Operator::Le => Some(Made::Truth(x <= y)),
        Operator::Ne => Some(Made::Truth(x != y)),
        Operator::Ge => Some(Made::Truth(y <= x)),
        Operator::Gt => Some(Made::Truth(y < x)),
    }
}

/// What an operator makes of two truth values. There is none for an operator that truth values don't have.
#[inline(never)]
fn on_booleans(op: Operator, left: &[u8], right: &[u8]) -> Option<Made>
    requires left { length left.now ≡ 1 }
    requires right { length right.now ≡ 1 }
    ensures { IfSome result (λ made. computed op (Some Kind.Boolean) (Some Kind.Boolean) left.now right.now ≡ Computes (made_bytes made)) }
{
    match op {
        Operator::Add => None,
        Operator::Sub => None,
        Operator::Mul => None,
        Operator::Div => None,
        Operator::Rem => None,
        Operator::Shl => None,
        Operator::Shr => None,
        _ => on_unsigned(op, Size::One, left, right),
    }
}

/// What an operator makes of two unsigned numbers of one size of at most 8 bytes, as the table of all operators and kinds has it.
#[inline(always)]
fn sized_unsigned(op: Operator, size: Size, left: &[u8], right: &[u8]) -> Option<Made>
    requires left { length left.now ≡ bytes_in size }
    requires right { length right.now ≡ bytes_in size }
    ensures { IfSome result (λ made. computed op (Some Kind.Unsigned) (Some Kind.Unsigned) left.now right.now ≡ Computes (made_bytes made)) }
{
    on_unsigned(op, size, left, right)
}

/// The same for two unsigned numbers whose size isn't known where this is called. It stays out of the loop over statements, which
/// has code of its own for the frequent sizes.
#[inline(never)]
fn small_unsigned(op: Operator, left: &[u8], right: &[u8]) -> Option<Made>
    requires { length right.now ≡ length left.now }
    ensures { IfSome result (λ made. computed op (Some Kind.Unsigned) (Some Kind.Unsigned) left.now right.now ≡ Computes (made_bytes made)) }
{
    sized_unsigned(op, Size::of(left.len())?, left, right)
}

/// What an operator makes of two unsigned numbers of one size. There is none for a shift, where the operator panics, and for bytes that
/// are no numbers. Frequent sizes come first, and the compiled code for each knows its size.
#[inline(always)]
fn two_unsigned(op: Operator, left: &[u8], right: &[u8]) -> Option<Made>
    requires { length right.now ≡ length left.now }
    ensures { IfSome result (λ made. computed op (Some Kind.Unsigned) (Some Kind.Unsigned) left.now right.now ≡ Computes (made_bytes made)) }
{
    match left.len() {
        4 => sized_unsigned(op, Size::Four, left, right),
        8 => sized_unsigned(op, Size::Eight, left, right),
        16 => on_wide_unsigned(op, left, right),
        _ => small_unsigned(op, left, right),
    }
}

/// What an operator makes of two signed numbers of one size of at most 8 bytes, as the table of all operators and kinds has it.
#[inline(always)]
fn sized_signed(op: Operator, size: Size, left: &[u8], right: &[u8]) -> Option<Made>
    requires left { length left.now ≡ bytes_in size }
    requires right { length right.now ≡ bytes_in size }
    ensures { IfSome result (λ made. computed op (Some Kind.Signed) (Some Kind.Signed) left.now right.now ≡ Computes (made_bytes made)) }
{
    on_signed(op, size, left, right)
}

/// The same for two signed numbers whose size isn't known where this is called. It stays out of the loop over statements, which
/// has code of its own for the frequent sizes.
#[inline(never)]
fn small_signed(op: Operator, left: &[u8], right: &[u8]) -> Option<Made>
    requires { length right.now ≡ length left.now }
    ensures { IfSome result (λ made. computed op (Some Kind.Signed) (Some Kind.Signed) left.now right.now ≡ Computes (made_bytes made)) }
{
    sized_signed(op, Size::of(left.len())?, left, right)
}

/// What an operator makes of two signed numbers of one size. There is none for a shift, where the operator panics, and for bytes that
/// are no numbers. Frequent sizes come first, and the compiled code for each knows its size.
#[inline(always)]
fn two_signed(op: Operator, left: &[u8], right: &[u8]) -> Option<Made>
    requires { length right.now ≡ length left.now }
    ensures { IfSome result (λ made. computed op (Some Kind.Signed) (Some Kind.Signed) left.now right.now ≡ Computes (made_bytes made)) }
{
    match left.len() {
        4 => sized_signed(op, Size::Four, left, right),
        8 => sized_signed(op, Size::Eight, left, right),
        16 => on_wide_signed(op, left, right),
        _ => small_signed(op, left, right),
    }
}

/// What an operator makes of two operands of one kind. There is none for a shift, where the operator panics, and for bytes that
/// are no numbers of one type and no truth values.
#[inline(always)]
fn of_one_kind(op: Operator, kind: Kind, left: &[u8], right: &[u8]) -> Option<Made>
    ensures { IfSome result (λ made. computed op (Some kind) (Some kind) left.now right.now ≡ Computes (made_bytes made)) }
{
    if left.len() != right.len() {
        return None;
    }
    match kind {
        Kind::Signed => two_signed(op, left, right),
        Kind::Unsigned => two_unsigned(op, left, right),
        Kind::Character => None,
        Kind::Boolean => {
            if left.len() == 1 {
                on_booleans(op, left, right)
            } else {
                None
            }
        }
    }
}

/// What an operator makes of two operands, of which `other` is the kind of the second. There is none where the operator panics, for
/// bytes that are no numbers and no truth values, and for operands of two kinds unless the operator is a shift.
#[inline(always)]
pub fn made_of(op: Operator, kind: Kind, other: Kind, left: &[u8], right: &[u8]) -> Option<Made>
    ensures { IfSome result (λ made. computed op (Some kind) (Some other) left.now right.now ≡ Computes (made_bytes made)) }
{
    match op {
        Operator::Shl => shifted_of(op, kind, other, left, right),
        Operator::Shr => shifted_of(op, kind, other, left, right),
        _ => {
            if kind == other {
                of_one_kind(op, kind, left, right)
            } else {
                None
            }
        }
    }
}

/// What an operator makes of two unsigned numbers of 4 or of 8 bytes, where it makes something.
#[inline(always)]
fn words_unsigned(op: Operator, left: &[u8], right: &[u8]) -> Option<Made>
    requires { length right.now ≡ length left.now }
    ensures { IfSome result (λ made. computed op (Some Kind.Unsigned) (Some Kind.Unsigned) left.now right.now ≡ Computes (made_bytes made)) }
{
    match left.len() {
        4 => sized_unsigned(op, Size::Four, left, right),
        8 => sized_unsigned(op, Size::Eight, left, right),
        _ => None,
    }
}

/// What an operator makes of two signed numbers of 4 or of 8 bytes, where it makes something.
#[inline(always)]
fn words_signed(op: Operator, left: &[u8], right: &[u8]) -> Option<Made>
    requires { length right.now ≡ length left.now }
    ensures { IfSome result (λ made. computed op (Some Kind.Signed) (Some Kind.Signed) left.now right.now ≡ Computes (made_bytes made)) }
{
    match left.len() {
        4 => sized_signed(op, Size::Four, left, right),
        8 => sized_signed(op, Size::Eight, left, right),
        _ => None,
    }
}

/// The same as `made_of` for operands of one kind and of the frequent sizes alone, without a call: what it makes fits a register.
#[inline(always)]
pub fn word_made_of(
    op: Operator,
    kind: Kind,
    other: Kind,
    left: &[u8],
    right: &[u8],
) -> Option<Made>
    ensures { IfSome result (λ made. computed op (Some kind) (Some other) left.now right.now ≡ Computes (made_bytes made)) }
{
    if kind != other {
        return None;
    }
    if left.len() != right.len() {
        return None;
    }
    match kind {
        Kind::Signed => words_signed(op, left, right),
        Kind::Unsigned => words_unsigned(op, left, right),
        Kind::Character => None,
        Kind::Boolean => None,
    }
}
