//! Numbers extended to sixteen bytes.

ghost use Rattle.std.specs.Prelude.{◌≡◌, ◌≤◌, ◌<◌, ◌*◌, ◌^◌, ◌↔◌, IsTrue, IsFalse, length};
ghost use Rattle.numbers.specs.Bytes.{value_of, number_of};

/// Whether bytes are a negative number in two's complement.
fn is_negative(bytes: &[u8]) -> bool
    ensures { IsTrue result ↔ (256 ^ length bytes.now ≤ 2 * value_of bytes.now) }
{
    let size = bytes.len();
    if size == 0 {
        return false;
    }
    bytes[size - 1] > 127
}

/// The byte that extends a number: every bit of it is the number's sign.
fn extension(bytes: &[u8], is_signed: bool) -> u8
    ensures negative { IsTrue is_signed → 256 ^ length bytes.now ≤ 2 * value_of bytes.now → result ≡ 255 }
    ensures positive { 2 * value_of bytes.now < 256 ^ length bytes.now → result ≡ 0 }
    ensures unsigned { IsFalse is_signed → result ≡ 0 }
{
    if is_signed {
        if is_negative(bytes) { 255 } else { 0 }
    } else {
        0
    }
}

/// The bytes extended to sixteen, by the sign where the number is signed, else by zeros.
pub fn pad16(it: &[u8], is_signed: bool) -> [u8; 16]
    requires { length it.now ≤ 16 }
    ensures size { length result ≡ 16 }
    ensures number { number_of is_signed result ≡ number_of is_signed it.now }
{
    let byte = extension(it, is_signed);
    let mut padded = [byte; 16];
    padded[..it.len()].copy_from_slice(it);
    padded
}
