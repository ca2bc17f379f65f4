//! Addresses by index.

ghost use Rattle.std.specs.Prelude.{◌≡◌};
ghost use Rattle.dwarf_ranges.specs.Addresses.{address_at, u64_with_index};
ghost use Rattle.dwarf_ranges.specs.Views.{addresses_view};

use dwarf_encoding::u64_le_at;

/// The section `__debug_addr`, and the offset of the unit's part of it (DWARF 5, section 7.27).
#[derive(Clone, Copy)]
pub struct AddressTable<'a> {
    pub debug_addr: &'a [u8],
    /// DW_AT_addr_base of the unit, or 8 if it has none.
    pub addr_base: u64,
}

/// The eight-byte number at an index of the part of a section that begins at `base`; `None` if it passes the end.
fn u64_with_index(section: &[u8], base: u64, index: u64) -> Option<u64>
    ensures { result ≡ u64_with_index section.now base index }
{
    let offset = index.checked_mul(8)?.checked_add(base)?;
    let size = section.len() as u64;
    if size < 8 || size - 8 < offset {
        return None;
    }
    Some(u64_le_at(section, offset as usize))
}

impl<'a> AddressTable<'a> {
    /// The address at an index, from 0 on; `None` if it passes the end of the section.
    pub fn get(&self, index: u64) -> Option<u64>
        ensures { result ≡ address_at (addresses_view self.now) index }
    {
        u64_with_index(self.debug_addr, self.addr_base, index)
    }
}
