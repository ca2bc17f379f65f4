//! An entry of a range list.

/// The meaning of an entry of a range list (DWARF 5, section 2.17.3).
#[derive(Clone, Copy)]
pub enum RangeEntry {
    /// The end of the list.
    EndOfList,
    /// The base address for the entries after this one.
    BaseAddress(u64),
    /// A range whose ends are offsets from the base address.
    OffsetPair(u64, u64),
    /// A range whose ends are addresses.
    StartEnd(u64, u64),
    /// No range, because an indexed address is missing.
    NoRange,
}
