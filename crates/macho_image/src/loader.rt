//! The constants of mach-o/loader.h that are read here, in the header's order. A size is in bytes.

/// The size of `mach_header_64`.
pub(crate) const MACH_HEADER_64_LEN: usize = 32;

/// `magic` of a 64-bit image.
pub(crate) const MH_MAGIC_64: u32 = 0xfeed_facf;

/// A `filetype`: a companion with debug information, and no contents for most sections.
pub(crate) const MH_DSYM: u32 = 0xa;

/// The size of `load_command`, the beginning of each command.
pub(crate) const LOAD_COMMAND_LEN: usize = 8;

/// A `cmd`: `symtab_command`.
pub(crate) const LC_SYMTAB: u32 = 0x2;

/// A `cmd`: `segment_command_64`.
pub(crate) const LC_SEGMENT_64: u32 = 0x19;

/// A `cmd`: `uuid_command`.
pub(crate) const LC_UUID: u32 = 0x1b;

/// The size of `segment_command_64`; its sections follow it.
pub(crate) const SEGMENT_COMMAND_64_LEN: usize = 72;

/// The size of `segname` and of `sectname`.
pub(crate) const NAME_LEN: usize = 16;

/// The size of `section_64`.
pub(crate) const SECTION_64_LEN: usize = 80;

/// `segname` of the segment of the text.
pub(crate) const SEG_TEXT: &[u8] = b"__TEXT";

/// The size of `symtab_command`.
pub(crate) const SYMTAB_COMMAND_LEN: usize = 24;

/// The size of `uuid_command`.
pub(crate) const UUID_COMMAND_LEN: usize = 24;
