/// Why bytes are no universal file.
///
/// The faults are tested in this order, each of the last two over all entries of the table, so if several apply it is
/// the first of them here. An index is that of an entry, counted from 0; it is the first entry with the fault.
#[derive(Clone, Copy, Debug, PartialEq, Eq)]
pub enum FatFault {
    /// The bytes begin with neither FAT_MAGIC nor FAT_MAGIC_64.
    NotUniversal,
    /// Fewer bytes than the 8 of `fat_header`.
    HeaderTruncated,
    /// `nfat_arch`, which is the number in the fault, is above 32. A Java class file, which shares FAT_MAGIC, has a
    /// version of at least 45 at this offset.
    TooManyArches(u32),
    /// The `nfat_arch` entries after the header reach past the end. An entry has 20 bytes, and 32 with FAT_MAGIC_64.
    TableTruncated,
    /// `offset + size` of the entry at this index is past the end.
    SliceOutside(u32),
    /// `size` of the entry at this index is above 4,294,967,295.
    TooLarge(u32),
}
