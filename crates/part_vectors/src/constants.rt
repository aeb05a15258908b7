//! The constants that literals and lengths are, which no run of the program asks for yet. The bytes are by the Rust Reference: numbers in two's
//! complement, the lowest byte first, and a character as its code point.

use std::alloc::Global;
use std::test::Fail;
use world::{
    Bytes, Const, Crate, HirDatabase, IntTy, Literal, Text, TryClone, Ty, UintTy, intern_const_ref,
    usize_const,
};

/// What a constant is to be: a value of a type with these bytes, or, without bytes, the constant `Error`.
fn is_constant(konst: &Const, ty: &Ty, bytes: Option<&[u8]>) -> bool {
    match (konst, bytes) {
        (Const::Value(value), Some(bytes)) => {
            value.ty == *ty && value.memory.as_slice() == bytes
        }
        (Const::Error, None) => true,
        _ => false,
    }
}

/// Fails with the row unless the literal is this constant of the type.
fn expect(
    alloc: Global,
    row: &'static str,
    value: &Literal,
    ty: Ty,
    bytes: Option<&[u8]>,
) -> Result<(), Fail> {
    let db = HirDatabase::new(alloc);
    let meant = ty.try_clone(alloc)?;
    let konst = intern_const_ref(alloc, &db, value, ty, Crate(0))?;
    if is_constant(&konst, &meant, bytes) {
        return Ok(());
    }
    Err(Fail::new(row))
}

#[test]
fn numbers_are_constants_of_their_types(rt: HostRuntime) -> Result<(), Fail> {
    let alloc = rt.alloc();
    expect(
        alloc,
        "-1 at i8",
        &Literal::Int(-1, None),
        Ty::Int(IntTy::I8),
        Some(&[0xff]),
    )?;
    expect(
        alloc,
        "1i16 at i8",
        &Literal::Int(1, Some(IntTy::I16)),
        Ty::Int(IntTy::I8),
        None,
    )?;
    expect(
        alloc,
        "an unsigned number at i8",
        &Literal::Uint(1, None),
        Ty::Int(IntTy::I8),
        None,
    )?;
    expect(
        alloc,
        "-2 at u16",
        &Literal::Int(-2, None),
        Ty::Uint(UintTy::U16),
        Some(&[0xfe, 0xff]),
    )?;
    expect(
        alloc,
        "65537u16 at u16",
        &Literal::Uint(65537, Some(UintTy::U16)),
        Ty::Uint(UintTy::U16),
        Some(&[1, 0]),
    )?;
    expect(
        alloc,
        "1u8 at u16",
        &Literal::Uint(1, Some(UintTy::U8)),
        Ty::Uint(UintTy::U16),
        None,
    )?;
    expect(alloc, "1 at bool", &Literal::Uint(1, None), Ty::Bool, None)
}

#[test]
fn other_literals_are_constants_of_their_types(rt: HostRuntime) -> Result<(), Fail> {
    let alloc = rt.alloc();
    expect(alloc, "true", &Literal::Bool(true), Ty::Bool, Some(&[1]))?;
    expect(
        alloc,
        "true at u8",
        &Literal::Bool(true),
        Ty::Uint(UintTy::U8),
        None,
    )?;
    expect(
        alloc,
        "the euro sign",
        &Literal::Char(0x20ac),
        Ty::Char,
        Some(&[0xac, 0x20, 0, 0]),
    )?;
    let text = Literal::Str(Text::from_str(alloc, "ab")?);
    expect(alloc, "a text", &text, Ty::Str, Some(&[0x61, 0x62]))?;
    let bytes = Literal::ByteStr(Bytes::from_slice(alloc, &[7, 8])?);
    expect(alloc, "bytes at str", &bytes, Ty::Str, None)
}

#[test]
fn lengths_are_constants_of_usize(rt: HostRuntime) -> Result<(), Fail> {
    let alloc = rt.alloc();
    let db = HirDatabase::new(alloc);
    let rows: [(Option<u128>, Option<&[u8]>); 3] = [
        (Some(258), Some(&[2, 1, 0, 0, 0, 0, 0, 0])),
        (Some((1 << 64) + 5), Some(&[5, 0, 0, 0, 0, 0, 0, 0])),
        (None, None),
    ];
    for (number, bytes) in rows {
        let konst = usize_const(alloc, &db, number, Crate(0))?;
        let is = is_constant(&konst, &Ty::Uint(UintTy::Usize), bytes);
        assert_eq!(rt; is, true, "at {number:?}");
    }
    Ok(())
}
