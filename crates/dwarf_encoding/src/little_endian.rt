//! Little-endian numbers.

ghost use Rattle.std.specs.Prelude.{◌≡◌, ◌+◌, ◌≤◌, length};
ghost use Rattle.dwarf_encoding.specs.LittleEndian.{u16_le_at, u32_le_at, u64_le_at};

use byteorder::{ByteOrder, LittleEndian};

/// The number in the two bytes from an offset.
#[tactic(auto, unfolding(crate::specs::LittleEndian::u16_le_at))]
pub fn u16_le_at(bytes: &[u8], offset: usize) -> u16
    requires { offset + 2 ≤ length bytes.now }
    ensures { result ≡ u16_le_at bytes.now offset }
{
    LittleEndian::read_u16(&bytes[offset..])
}

/// The number in the four bytes from an offset.
#[tactic(auto, unfolding(crate::specs::LittleEndian::u32_le_at))]
pub fn u32_le_at(bytes: &[u8], offset: usize) -> u32
    requires { offset + 4 ≤ length bytes.now }
    ensures { result ≡ u32_le_at bytes.now offset }
{
    LittleEndian::read_u32(&bytes[offset..])
}

/// The number in the eight bytes from an offset.
#[tactic(auto, unfolding(crate::specs::LittleEndian::u64_le_at))]
pub fn u64_le_at(bytes: &[u8], offset: usize) -> u64
    requires { offset + 8 ≤ length bytes.now }
    ensures { result ≡ u64_le_at bytes.now offset }
{
    LittleEndian::read_u64(&bytes[offset..])
}
