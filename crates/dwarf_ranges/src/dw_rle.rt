//! The kinds of the entries of `__debug_rnglists`, DWARF 5, table 7.30.

pub const DW_RLE_END_OF_LIST: u8 = 0x00;

pub const DW_RLE_BASE_ADDRESSX: u8 = 0x01;

pub const DW_RLE_STARTX_ENDX: u8 = 0x02;

pub const DW_RLE_STARTX_LENGTH: u8 = 0x03;

pub const DW_RLE_OFFSET_PAIR: u8 = 0x04;

pub const DW_RLE_BASE_ADDRESS: u8 = 0x05;

pub const DW_RLE_START_END: u8 = 0x06;

pub const DW_RLE_START_LENGTH: u8 = 0x07;
