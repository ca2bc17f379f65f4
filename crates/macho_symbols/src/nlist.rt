//! `nlist_64`: an entry of the symbol table, and the constants of mach-o/nlist.h that are read here, in the
//! header's order.

ghost use Rattle.std.specs.Prelude.{◌≡◌, ◌≤◌, length};
ghost use Rattle.macho_symbols.specs.Nlist.{n_strx, n_type, n_sect, n_value};

use byteorder::{ByteOrder, LittleEndian};

/// The size of `nlist_64` in bytes.
pub(crate) const NLIST_64_LEN: usize = 16;

/// Bits of `n_type`: at least one of them is set in an entry for a debugger.
pub(crate) const N_STAB: u8 = 0xe0;

/// Bits of `n_type`: the kind of the symbol's definition.
pub(crate) const N_TYPE: u8 = 0x0e;

/// A bit of `n_type`: the symbol is external.
pub(crate) const N_EXT: u8 = 0x01;

/// A value of the bits N_TYPE: the symbol is defined in the section `n_sect`.
pub(crate) const N_SECT: u8 = 0xe;

/// A value of `n_sect`: the symbol is in no section.
pub(crate) const NO_SECT: u8 = 0;

/// The greatest value of `n_sect`. A symbol can name the sections 1 to this.
pub(crate) const MAX_SECT: u8 = 255;

/// `n_strx`: the offset of the name in the string table.
#[tactic(auto, unfolding(macho_image::specs::Layout::u32_le_at))]
pub(crate) fn n_strx(entry: &[u8]) -> u32
    requires { 16 ≤ length entry.now }
    ensures { result ≡ n_strx entry.now }
{
    LittleEndian::read_u32(entry)
}

/// `n_type`.
pub(crate) fn n_type(entry: &[u8]) -> u8
    requires { 16 ≤ length entry.now }
    ensures { result ≡ n_type entry.now }
{
    entry[4]
}

/// `n_sect`: the number of the section, from 1 on.
pub(crate) fn n_sect(entry: &[u8]) -> u8
    requires { 16 ≤ length entry.now }
    ensures { result ≡ n_sect entry.now }
{
    entry[5]
}

/// `n_value`: the address.
#[tactic(auto, unfolding(macho_image::specs::Layout::u64_le_at))]
pub(crate) fn n_value(entry: &[u8]) -> u64
    requires { 16 ≤ length entry.now }
    ensures { result ≡ n_value entry.now }
{
    LittleEndian::read_u64(&entry[8..])
}
