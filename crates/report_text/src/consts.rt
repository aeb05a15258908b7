//! The texts of constants.

ghost use Rattle.std.specs.Prelude.{◌≡◌, IfOk};
ghost use Rattle.std.specs.Fmt.{signed_decimal};
ghost use Rattle.mir_mem.specs.IntValue.{number_in};
ghost use Rattle.report_text.specs.Consts.{number_text, bytes_text};
ghost use Rattle.report_text.specs.Types.{const_text};

use crate::names::{const_param_name, general_const_name};
use crate::texts::hex_text;
use mir_mem::IntValue;
use numbers::Kind;
use std::alloc::Global;
use world::{Bytes, Const, HirDatabase, NoMemory};

/// The text of a number, in decimal digits.
fn decimal_text(alloc: Global, number: IntValue) -> Result<Bytes, NoMemory>
    ensures { IfOk result (λ text. text ≡ signed_decimal (number_in number)) }
{
    let digits = match number {
        IntValue::I8(n) => n.to_string(alloc)?,
        IntValue::U8(n) => n.to_string(alloc)?,
        IntValue::I16(n) => n.to_string(alloc)?,
        IntValue::U16(n) => n.to_string(alloc)?,
        IntValue::I32(n) => n.to_string(alloc)?,
        IntValue::U32(n) => n.to_string(alloc)?,
        IntValue::I64(n) => n.to_string(alloc)?,
        IntValue::U64(n) => n.to_string(alloc)?,
        IntValue::I128(n) => n.to_string(alloc)?,
        IntValue::U128(n) => n.to_string(alloc)?,
    };
    Bytes::from_slice(alloc, digits.as_str().as_bytes())
}

/// The text of the number that an integer type has at these bytes.
fn number_text(alloc: Global, signed: bool, bytes: &[u8]) -> Result<Bytes, NoMemory>
    ensures { IfOk result (λ text. text ≡ number_text signed bytes.now) }
{
    match IntValue::from_bytes(bytes, signed) {
        Some(number) => decimal_text(alloc, number),
        None => hex_text(alloc, bytes),
    }
}

/// The text of the bytes of a value: a number if its type is an integer type, else hexadecimal digits.
fn bytes_text(alloc: Global, kind: Option<Kind>, bytes: &[u8]) -> Result<Bytes, NoMemory>
    ensures { IfOk result (λ text. text ≡ bytes_text kind bytes.now) }
{
    match kind {
        Some(Kind::Signed) => number_text(alloc, true, bytes),
        Some(Kind::Unsigned) => number_text(alloc, false, bytes),
        Some(Kind::Boolean) => hex_text(alloc, bytes),
        Some(Kind::Character) => hex_text(alloc, bytes),
        None => hex_text(alloc, bytes),
    }
}

/// The text of a constant: a number if its type is an integer type, else its bytes or its name.
#[tactic(auto, using(crate::proofs::Layers::const_layers))]
pub(crate) fn const_text(alloc: Global, db: &HirDatabase, konst: &Const) -> Result<Bytes, NoMemory>
    ensures { IfOk result (λ text. text ≡ const_text db.now konst.now) }
{
    match konst {
        Const::Value(value) => bytes_text(alloc, Kind::of(&value.ty), value.memory.as_slice()),
        Const::Param(param) => Bytes::from_slice(alloc, const_param_name(db, param.id)),
        Const::Unevaluated(named) => Bytes::from_slice(alloc, general_const_name(db, named.def)),
        Const::Error => Bytes::from_slice(alloc, b"{error}"),
    }
}
