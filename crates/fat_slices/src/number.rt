//! The numbers in a universal file's header and table, which are big-endian.

ghost use Rattle.std.specs.Prelude.{◌≡◌, ◌+◌, ◌≤◌, length};
ghost use Rattle.fat_slices.specs.Layout.{u32_be_at, u64_be_at};

use byteorder::{BigEndian, ByteOrder};

/// The number in the four bytes from an offset.
#[tactic(auto, unfolding(crate::specs::Layout::u32_be_at))]
pub(crate) fn number32(bytes: &[u8], offset: usize) -> u32
    requires { offset + 4 ≤ length bytes.now }
    ensures { result ≡ u32_be_at bytes.now offset }
{
    BigEndian::read_u32(&bytes[offset..])
}

/// The number in the eight bytes from an offset.
#[tactic(auto, unfolding(crate::specs::Layout::u64_be_at))]
pub(crate) fn number64(bytes: &[u8], offset: usize) -> u64
    requires { offset + 8 ≤ length bytes.now }
    ensures { result ≡ u64_be_at bytes.now offset }
{
    BigEndian::read_u64(&bytes[offset..])
}
