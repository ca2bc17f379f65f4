//! Numbers among stored bytes, which are big-endian.

ghost use Rattle.std.specs.Prelude.{◌≡◌, ◌≤◌, ◌+◌, length, take, drop};
ghost use Rattle.std.specs.Int.{w32, w64, from_be_bytes};

use byteorder::{BigEndian, ByteOrder};

/// The number in eight bytes from an offset on.
pub fn u64_be_at(bytes: &[u8], offset: usize) -> u64
    requires { offset + 8 ≤ length bytes.now }
    ensures { result ≡ from_be_bytes w64 (take 8 (drop offset bytes.now)) }
{
    BigEndian::read_u64(&bytes[offset..])
}

/// The number in four bytes from an offset on.
pub fn u32_be_at(bytes: &[u8], offset: usize) -> u32
    requires { offset + 4 ≤ length bytes.now }
    ensures { result ≡ from_be_bytes w32 (take 4 (drop offset bytes.now)) }
{
    BigEndian::read_u32(&bytes[offset..])
}
