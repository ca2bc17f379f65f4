//! The constants of DWARF 5, sections 7.5.1, 7.5.3 and 7.5.4, that are used here.

/// A full compilation unit.
pub(crate) const DW_UT_COMPILE: u8 = 0x01;

/// A partial compilation unit.
pub(crate) const DW_UT_PARTIAL: u8 = 0x03;

/// An entry has children.
pub(crate) const DW_CHILDREN_YES: u8 = 0x01;

/// An inlined subroutine.
pub const DW_TAG_INLINED_SUBROUTINE: u64 = 0x1d;

/// A subprogram.
pub const DW_TAG_SUBPROGRAM: u64 = 0x2e;

pub(crate) const DW_AT_NAME: u64 = 0x03;

pub(crate) const DW_AT_STMT_LIST: u64 = 0x10;

pub(crate) const DW_AT_LOW_PC: u64 = 0x11;

pub(crate) const DW_AT_HIGH_PC: u64 = 0x12;

pub(crate) const DW_AT_COMP_DIR: u64 = 0x1b;

pub(crate) const DW_AT_ABSTRACT_ORIGIN: u64 = 0x31;

pub(crate) const DW_AT_SPECIFICATION: u64 = 0x47;

pub(crate) const DW_AT_RANGES: u64 = 0x55;

pub(crate) const DW_AT_CALL_COLUMN: u64 = 0x57;

pub(crate) const DW_AT_CALL_FILE: u64 = 0x58;

pub(crate) const DW_AT_CALL_LINE: u64 = 0x59;

pub(crate) const DW_AT_LINKAGE_NAME: u64 = 0x6e;

pub(crate) const DW_AT_STR_OFFSETS_BASE: u64 = 0x72;

pub(crate) const DW_AT_ADDR_BASE: u64 = 0x73;

pub(crate) const DW_AT_RNGLISTS_BASE: u64 = 0x74;

pub(crate) const DW_AT_MIPS_LINKAGE_NAME: u64 = 0x2007;
