/// Why bytes are no image.
///
/// `TooLarge` is tested first, then the first three in this order, then the load commands from the first on, and last
/// `NoUuid`. A number is the index of the faulty load command, counted from 0. If the command has several faults, the
/// first of them in this order is reported.
#[derive(Clone, Copy, Debug, PartialEq, Eq)]
pub enum ImageFault {
    /// The bytes do not begin with MH_MAGIC_64, little-endian: `CF FA ED FE`.
    NotMachO64,
    /// Fewer bytes than the 32 of `mach_header_64`.
    HeaderTruncated,
    /// The `sizeofcmds` bytes after the header pass the end.
    CommandsOutside,
    /// Fewer than 8 of the `sizeofcmds` bytes are left for this command, or its `cmdsize` is below 8 or above the
    /// number of bytes left.
    BadCommand(u32),
    /// An LC_SEGMENT_64 whose `cmdsize` is below `72 + 80 * nsects`.
    BadSegment(u32),
    /// An LC_UUID whose `cmdsize` is below 24.
    BadUuid(u32),
    /// An LC_UUID after an earlier one.
    SecondUuid(u32),
    /// An LC_SYMTAB whose `cmdsize` is below 24.
    BadSymtab(u32),
    /// An LC_SYMTAB after an earlier one.
    SecondSymtab(u32),
    /// No LC_UUID.
    NoUuid,
    /// More than 4,294,967,295 bytes.
    TooLarge,
}
