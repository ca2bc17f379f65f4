/// An instruction of a line number program, if it changes a register that is kept here or appends a row.
#[derive(Clone, Copy)]
pub enum Instruction {
    /// A special opcode, `opcode_base` or greater.
    Special(u8),
    /// `DW_LNS_copy`.
    Copy,
    /// `DW_LNS_advance_pc`, with its operand.
    AdvancePc(u64),
    /// `DW_LNS_advance_line`, with its operand. A negative operand is its two's complement of 64 bits.
    AdvanceLine(u64),
    /// `DW_LNS_set_file`, with its operand.
    SetFile(u64),
    /// `DW_LNS_set_column`, with its operand.
    SetColumn(u64),
    /// `DW_LNS_const_add_pc`.
    ConstAddPc,
    /// `DW_LNS_fixed_advance_pc`, with its operand.
    FixedAdvancePc(u16),
    /// `DW_LNE_end_sequence`.
    EndSequence,
    /// `DW_LNE_set_address`, with its operand.
    SetAddress(u64),
    /// Another instruction, which changes no register that is kept here.
    Other,
}
