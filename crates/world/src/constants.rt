//! Constants that literals and lengths are.
ghost use Rattle.std.specs.Prelude.{◌≡◌, ◌≤◌, IfOk, Some};
ghost use Rattle.types.specs.declared.ty.Const.TheVariants as constant;
ghost use Rattle.types.specs.declared.ty.GenericArg.TheVariants as argument;
ghost use Rattle.world.specs.Checked.{int_bytes, uint_bytes};
ghost use Rattle.world.specs.Constants.{bool_literal, byte_string_literal, char_literal, const_of_bytes, const_of_literal, int_literal, int_suffix_fits, literal_bytes, low_bytes, signed_low_bytes, str_literal, uint_literal, uint_suffix_fits, usize_const};

use crate::{
    Bytes, Const, Crate, GenericArg, HirDatabase, IntTy, Literal, MemoryMap, NoMemory, Ty, UintTy,
    ValueConst,
};
use std::alloc::Global;

/// The constant of a type that is not known: `Const::Error` at every type.
pub fn unknown_const(_ty: Ty) -> Const
    ensures { result ≡ constant.Error }
{
    Const::Error
}

/// The constant of a type that is not known, as a generic argument.
pub fn unknown_const_as_generic(ty: Ty) -> GenericArg
    ensures { result ≡ argument.Konst constant.Error }
{
    GenericArg::Konst(unknown_const(ty))
}

/// A number as a constant of type `usize`: its low eight bytes, the lowest first. Where there is no number, it is `Const::Error`.
/// `NoMemory` says that there is no room for the bytes. The rule follows rust-analyzer's `usize_const`.
pub fn usize_const(
    alloc: Global,
    _db: &HirDatabase,
    value: Option<u128>,
    _krate: Crate,
) -> Result<Const, NoMemory>
    ensures { IfOk result (λ konst. konst ≡ usize_const value) }
{
    let Some(number) = value else {
        return Ok(Const::Error);
    };
    let memory = low_bytes(alloc, 8, number)?;
    Ok(const_of_bytes(Ty::Uint(UintTy::Usize), memory))
}

/// A literal as a constant of a type: a number at an integer type, in as many bytes as the type has; a truth value at `bool`; a
/// character at `char`; a string at `str`; a byte string at `[u8]`. A literal that isn't one of the type is `Const::Error`, as is a
/// number whose suffix names another type. `NoMemory` says that there is no room for the bytes. The rule follows rust-analyzer's
/// `intern_const_ref`.
pub fn intern_const_ref(
    alloc: Global,
    _db: &HirDatabase,
    value: &Literal,
    ty: Ty,
    _krate: Crate,
) -> Result<Const, NoMemory>
    ensures { IfOk result (λ konst. konst ≡ const_of_literal value.now ty) }
{
    match literal_bytes(alloc, value, &ty)? {
        Some(memory) => Ok(const_of_bytes(ty, memory)),
        None => Ok(Const::Error),
    }
}

/// A constant of a type, whose bytes refer to no memory.
fn const_of_bytes(ty: Ty, memory: Bytes) -> Const
    ensures { result ≡ const_of_bytes ty (Some memory) }
{
    Const::Value(ValueConst {
        ty,
        memory,
        memory_map: MemoryMap::Empty,
    })
}

/// The bytes of a literal at a type, if it is one of the type.
fn literal_bytes(alloc: Global, value: &Literal, ty: &Ty) -> Result<Option<Bytes>, NoMemory>
    ensures { IfOk result (λ bytes. bytes ≡ literal_bytes value.now ty.now) }
{
    match ty {
        Ty::Bool => bool_literal(alloc, value),
        Ty::Char => char_literal(alloc, value),
        Ty::Int(int) => int_literal(alloc, value, *int),
        Ty::Uint(uint) => uint_literal(alloc, value, *uint),
        Ty::Str => str_literal(alloc, value),
        Ty::Slice(element) => match element.as_ref() {
            Ty::Uint(UintTy::U8) => byte_string_literal(alloc, value),
            _ => Ok(None),
        },
        _ => Ok(None),
    }
}

/// The byte of a truth value.
fn bool_literal(alloc: Global, value: &Literal) -> Result<Option<Bytes>, NoMemory>
    ensures { IfOk result (λ bytes. bytes ≡ bool_literal value.now) }
{
    match value {
        Literal::Bool(truth) => Ok(Some(low_bytes(alloc, 1, *truth as u128)?)),
        _ => Ok(None),
    }
}

/// The four bytes of a character.
fn char_literal(alloc: Global, value: &Literal) -> Result<Option<Bytes>, NoMemory>
    ensures { IfOk result (λ bytes. bytes ≡ char_literal value.now) }
{
    match value {
        Literal::Char(number) => Ok(Some(low_bytes(alloc, 4, *number as u128)?)),
        _ => Ok(None),
    }
}

/// The bytes of a number at a signed type.
fn int_literal(alloc: Global, value: &Literal, ty: IntTy) -> Result<Option<Bytes>, NoMemory>
    ensures { IfOk result (λ bytes. bytes ≡ int_literal ty value.now) }
{
    match value {
        Literal::Int(number, suffix) => {
            if int_suffix_fits(*suffix, ty) {
                Ok(Some(signed_low_bytes(alloc, int_size(ty), *number)?))
            } else {
                Ok(None)
            }
        }
        _ => Ok(None),
    }
}

/// The bytes of a number at an unsigned type.
fn uint_literal(alloc: Global, value: &Literal, ty: UintTy) -> Result<Option<Bytes>, NoMemory>
    ensures { IfOk result (λ bytes. bytes ≡ uint_literal ty value.now) }
{
    match value {
        Literal::Uint(number, suffix) => {
            if uint_suffix_fits(*suffix, ty) {
                Ok(Some(low_bytes(alloc, uint_size(ty), *number)?))
            } else {
                Ok(None)
            }
        }
        Literal::Int(number, None) => Ok(Some(signed_low_bytes(alloc, uint_size(ty), *number)?)),
        _ => Ok(None),
    }
}

/// The bytes of a string.
fn str_literal(alloc: Global, value: &Literal) -> Result<Option<Bytes>, NoMemory>
    ensures { IfOk result (λ bytes. bytes ≡ str_literal value.now) }
{
    match value {
        Literal::Str(text) => Ok(Some(Bytes::from_slice(alloc, text.as_str().as_bytes())?)),
        _ => Ok(None),
    }
}

/// The bytes of a byte string.
fn byte_string_literal(alloc: Global, value: &Literal) -> Result<Option<Bytes>, NoMemory>
    ensures { IfOk result (λ bytes. bytes ≡ byte_string_literal value.now) }
{
    match value {
        Literal::ByteStr(bytes) => Ok(Some(Bytes::from_slice(alloc, bytes.as_slice())?)),
        _ => Ok(None),
    }
}

/// Whether a number with that suffix, or with none, is of a signed type.
fn int_suffix_fits(suffix: Option<IntTy>, ty: IntTy) -> bool
    ensures { result ≡ int_suffix_fits suffix ty }
{
    match suffix {
        Some(named) => named == ty,
        None => true,
    }
}

/// Whether a number with that suffix, or with none, is of an unsigned type.
fn uint_suffix_fits(suffix: Option<UintTy>, ty: UintTy) -> bool
    ensures { result ≡ uint_suffix_fits suffix ty }
{
    match suffix {
        Some(named) => named == ty,
        None => true,
    }
}

/// How many bytes a signed type has.
fn int_size(ty: IntTy) -> usize
    ensures size { result ≡ int_bytes ty }
    ensures bound { result ≤ 16 }
{
    match ty {
        IntTy::I8 => 1,
        IntTy::I16 => 2,
        IntTy::I32 => 4,
        IntTy::I64 => 8,
        IntTy::I128 => 16,
        IntTy::Isize => 8,
    }
}

/// How many bytes an unsigned type has.
fn uint_size(ty: UintTy) -> usize
    ensures size { result ≡ uint_bytes ty }
    ensures bound { result ≤ 16 }
{
    match ty {
        UintTy::U8 => 1,
        UintTy::U16 => 2,
        UintTy::U32 => 4,
        UintTy::U64 => 8,
        UintTy::U128 => 16,
        UintTy::Usize => 8,
    }
}

/// The low bytes of a number, the lowest first.
fn low_bytes(alloc: Global, size: usize, number: u128) -> Result<Bytes, NoMemory>
    requires { size ≤ 16 }
    ensures { IfOk result (λ bytes. bytes ≡ low_bytes size number) }
{
    let bytes = number.to_le_bytes();
    Bytes::from_slice(alloc, &bytes[..size])
}

/// The low bytes of a number in two's complement, the lowest first.
fn signed_low_bytes(alloc: Global, size: usize, number: i128) -> Result<Bytes, NoMemory>
    requires { size ≤ 16 }
    ensures { IfOk result (λ bytes. bytes ≡ signed_low_bytes size number) }
{
    low_bytes(alloc, size, number.cast_unsigned())
}
