//! Copies of bytes. As many bytes as a number has are copied as one value, without a loop over them.

ghost use Rattle.std.specs.Prelude.{◌≡◌, ◌+◌, ◌≤◌, length, take, drop};
ghost use Rattle.std.specs.List.{copy_within};

/// `N` bytes of a list, from a place on.
#[inline]
fn chunk_at<const N: usize>(bytes: &[u8], from: usize) -> [u8; N]
    requires { from + N ≤ length bytes.now }
    ensures { result ≡ take N (drop from bytes.now) }
{
    match bytes[from..from + N].split_first_chunk::<N>() {
        Some((chunk, _)) => *chunk,
        None => unreachable!(),
    }
}

/// Copies `N` bytes to another place.
#[inline]
fn move_chunk<const N: usize>(bytes: &mut [u8], from: usize, to: usize)
    requires from { from + N ≤ length bytes.old }
    requires to { to + N ≤ length bytes.old }
    ensures { bytes.new ≡ copy_within bytes.old from (from + N) to }
{
    let chunk: [u8; N] = chunk_at::<N>(bytes, from);
    bytes[to..to + N].copy_from_slice(&chunk);
}

/// Copies bytes to another place, which may overlap the one that they come from.
#[inline]
pub(crate) fn move_bytes(bytes: &mut [u8], from: usize, size: usize, to: usize)
    requires from { from + size ≤ length bytes.old }
    requires to { to + size ≤ length bytes.old }
    ensures { bytes.new ≡ copy_within bytes.old from (from + size) to }
{
    match size {
        1 => move_chunk::<1>(bytes, from, to),
        4 => move_chunk::<4>(bytes, from, to),
        8 => move_chunk::<8>(bytes, from, to),
        16 => move_chunk::<16>(bytes, from, to),
        _ => bytes.copy_within(from..from + size, to),
    }
}
