//! A tuple of `__debug_aranges`.

/// A tuple: the `length` addresses from `address` on belong to a unit.
#[derive(Clone, Copy, Debug, PartialEq, Eq)]
pub struct Arange {
    /// The offset of the unit in `__debug_info`.
    pub debug_info_offset: u64,
    pub address: u64,
    pub length: u64,
}
