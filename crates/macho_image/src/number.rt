//! Numbers in an image, which are little-endian.

ghost use Rattle.std.specs.Prelude.{◌≡◌, ◌+◌, ◌≤◌, length};
ghost use Rattle.macho_image.specs.Layout.{u32_le_at, u64_le_at};

use byteorder::{ByteOrder, LittleEndian};

/// The number in the four bytes from an offset.
#[tactic(auto, unfolding(crate::specs::Layout::u32_le_at))]
pub(crate) fn number32(bytes: &[u8], offset: usize) -> u32
    requires { offset + 4 ≤ length bytes.now }
    ensures { result ≡ u32_le_at bytes.now offset }
{
    LittleEndian::read_u32(&bytes[offset..])
}

/// The number in the eight bytes from an offset.
#[tactic(auto, unfolding(crate::specs::Layout::u64_le_at))]
pub(crate) fn number64(bytes: &[u8], offset: usize) -> u64
    requires { offset + 8 ≤ length bytes.now }
    ensures { result ≡ u64_le_at bytes.now offset }
{
    LittleEndian::read_u64(&bytes[offset..])
}
