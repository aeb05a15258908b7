//! Numbers that bytes are.

ghost use Rattle.std.specs.Prelude.{◌≡◌, ℕ, ◌≤◌, IsTrue, length, true};
ghost use Rattle.numbers.specs.Bytes.{is_width, value_of, number_of};

/// Whether some integer type has `size` bytes.
pub fn is_width(size: usize) -> bool
    ensures { result ≡ is_width size }
{
    size == 1 || size == 2 || size == 4 || size == 8 || size == 16
}

/// The unsigned number that two bytes are.
pub fn word2(bytes: &[u8]) -> u16
    requires { length bytes.now ≡ 2 }
    ensures { result ≡ value_of bytes.now }
{
    u16::from_le_bytes([bytes[0], bytes[1]])
}

/// The unsigned number that four bytes are.
pub fn word4(bytes: &[u8]) -> u32
    requires { length bytes.now ≡ 4 }
    ensures { result ≡ value_of bytes.now }
{
    u32::from_le_bytes([bytes[0], bytes[1], bytes[2], bytes[3]])
}

/// The unsigned number that eight bytes are.
pub fn word8(bytes: &[u8]) -> u64
    requires { length bytes.now ≡ 8 }
    ensures { result ≡ value_of bytes.now }
{
    u64::from_le_bytes([
        bytes[0], bytes[1], bytes[2], bytes[3], bytes[4], bytes[5], bytes[6], bytes[7],
    ])
}

/// The unsigned number that sixteen bytes are.
pub fn word16(bytes: &[u8]) -> u128
    requires { length bytes.now ≡ 16 }
    ensures { result ≡ value_of bytes.now }
{
    let low = word8(&bytes[..8]);
    let high = word8(&bytes[8..]);
    high as u128 * 0x1_0000_0000_0000_0000 + low as u128
}

/// The unsigned number that bytes of an integer type are.
pub(crate) fn unsigned(bytes: &[u8]) -> u128
    requires { IsTrue (is_width (length bytes.now)) }
    ensures { result ≡ value_of bytes.now }
{
    match bytes.len() {
        1 => bytes[0] as u128,
        2 => word2(bytes) as u128,
        4 => word4(bytes) as u128,
        8 => word8(bytes) as u128,
        _ => word16(bytes),
    }
}

/// The signed number that bytes of an integer type are.
pub(crate) fn signed(bytes: &[u8]) -> i128
    requires { IsTrue (is_width (length bytes.now)) }
    ensures { result ≡ number_of true bytes.now }
{
    match bytes.len() {
        1 => bytes[0].cast_signed() as i128,
        2 => word2(bytes).cast_signed() as i128,
        4 => word4(bytes).cast_signed() as i128,
        8 => word8(bytes).cast_signed() as i128,
        _ => word16(bytes).cast_signed(),
    }
}
