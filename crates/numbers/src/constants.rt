//! The numbers that constants are.

ghost use Rattle.std.specs.Prelude.{◌≡◌, ◌≤◌, length};
ghost use Rattle.numbers.specs.Bytes.{value_of};
ghost use Rattle.numbers.specs.Constants.{number_in, number_of_bytes};

use crate::read::word16;
use types::Const;

/// The unsigned number that at most 16 bytes are, the lowest first.
pub fn number_of(bytes: &[u8]) -> u128
    requires { length bytes.now ≤ 16 }
    ensures { result ≡ value_of bytes.now }
{
    if bytes.len() == 1 {
        return bytes[0] as u128;
    }
    let mut word = [0; 16];
    word[..bytes.len()].copy_from_slice(bytes);
    word16(&word)
}

/// The unsigned number that bytes are, if there are at most 16.
fn number_of_bytes(bytes: &[u8]) -> Option<u128>
    ensures { result ≡ number_of_bytes bytes.now }
{
    if bytes.len() <= 16 {
        Some(number_of(bytes))
    } else {
        None
    }
}

/// The unsigned number that a constant's value is, as the length of an array is one, if it has at most 16 bytes. A constant that isn't
/// evaluated has none.
pub fn number_in(konst: &Const) -> Option<u128>
    ensures { result ≡ number_in konst.now }
{
    match konst {
        Const::Value(value) => number_of_bytes(value.memory.as_slice()),
        _ => None,
    }
}
