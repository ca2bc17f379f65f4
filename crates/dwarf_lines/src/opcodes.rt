//! The opcodes of DWARF 5, section 7.22, whose instructions change a register that is kept here.

/// The byte that begins an extended instruction.
pub(crate) const EXTENDED: u8 = 0;

pub(crate) const DW_LNS_COPY: u8 = 1;

pub(crate) const DW_LNS_ADVANCE_PC: u8 = 2;

pub(crate) const DW_LNS_ADVANCE_LINE: u8 = 3;

pub(crate) const DW_LNS_SET_FILE: u8 = 4;

pub(crate) const DW_LNS_SET_COLUMN: u8 = 5;

pub(crate) const DW_LNS_NEGATE_STMT: u8 = 6;

pub(crate) const DW_LNS_SET_BASIC_BLOCK: u8 = 7;

pub(crate) const DW_LNS_CONST_ADD_PC: u8 = 8;

pub(crate) const DW_LNS_FIXED_ADVANCE_PC: u8 = 9;

pub(crate) const DW_LNS_SET_PROLOGUE_END: u8 = 10;

pub(crate) const DW_LNS_SET_EPILOGUE_BEGIN: u8 = 11;

pub(crate) const DW_LNS_SET_ISA: u8 = 12;

pub(crate) const DW_LNE_END_SEQUENCE: u8 = 1;

pub(crate) const DW_LNE_SET_ADDRESS: u8 = 2;
