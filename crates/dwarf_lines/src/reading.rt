//! The encoding of instructions (DWARF 5, sections 6.2.5 and 7.22).

ghost use Rattle.std.specs.Prelude.{◌≡◌, ◌<◌, length};
ghost use Rattle.std.specs.Option.{option_map};
ghost use Rattle.dwarf_lines.specs.Instructions.{after_operands, other_at, fixed_advance_at};
ghost use Rattle.dwarf_lines.specs.Instructions.{standard_at, extended, extended_at, instruction_at};
ghost use Rattle.dwarf_lines.specs.Views.{header_view};

use crate::header::Header;
use crate::instruction::Instruction;
use crate::opcodes::{
    DW_LNE_END_SEQUENCE, DW_LNE_SET_ADDRESS, DW_LNS_ADVANCE_LINE, DW_LNS_ADVANCE_PC,
    DW_LNS_CONST_ADD_PC, DW_LNS_COPY, DW_LNS_FIXED_ADVANCE_PC, DW_LNS_NEGATE_STMT,
    DW_LNS_SET_BASIC_BLOCK, DW_LNS_SET_COLUMN, DW_LNS_SET_EPILOGUE_BEGIN, DW_LNS_SET_FILE,
    DW_LNS_SET_ISA, DW_LNS_SET_PROLOGUE_END, EXTENDED,
};
use dwarf_encoding::{signed_leb128, u16_le_at, u64_le_at, unsigned_leb128};

/// The bytes after `count` unsigned LEB128 operands.
fn after_operands(count: u8, bytes: &[u8]) -> Option<&[u8]>
    ensures { option_map (λ rest. rest.now) result ≡ after_operands count bytes.now }
{
    let mut rest = bytes;
    for done in 0..count {
        let Some((_, after)) = unsigned_leb128(rest) else {
            return None;
        };
        rest = after;
    }
    Some(rest)
}

/// An instruction with `count` LEB128 operands that changes no register that is kept here.
fn other_instruction(count: u8, bytes: &[u8]) -> Option<(Instruction, &[u8])>
    ensures { option_map (λ x. (x.0, x.1.now)) result ≡ other_at count bytes.now }
{
    let rest = after_operands(count, bytes)?;
    Some((Instruction::Other, rest))
}

/// `DW_LNS_fixed_advance_pc`, from its operand on.
fn fixed_advance(bytes: &[u8]) -> Option<(Instruction, &[u8])>
    ensures { option_map (λ x. (x.0, x.1.now)) result ≡ fixed_advance_at bytes.now }
{
    if bytes.len() < 2 {
        return None;
    }
    let operand = u16_le_at(bytes, 0);
    Some((Instruction::FixedAdvancePc(operand), bytes.split_at(2).1))
}

/// The instruction of a standard opcode, from its operands on.
#[tactic(auto, unfolding(crate::specs::Instructions::standard_at))]
fn standard_instruction<'a>(
    header: &Header<'_>,
    opcode: u8,
    bytes: &'a [u8],
) -> Option<(Instruction, &'a [u8])>
    requires { 0 < opcode }
    ensures { option_map (λ x. (x.0, x.1.now)) result ≡ standard_at (header_view header.now) opcode bytes.now }
{
    match opcode {
        DW_LNS_COPY => Some((Instruction::Copy, bytes)),
        DW_LNS_ADVANCE_PC => {
            let (operand, rest) = unsigned_leb128(bytes)?;
            Some((Instruction::AdvancePc(operand), rest))
        }
        DW_LNS_ADVANCE_LINE => {
            let (operand, rest) = signed_leb128(bytes)?;
            Some((Instruction::AdvanceLine(operand), rest))
        }
        DW_LNS_SET_FILE => {
            let (operand, rest) = unsigned_leb128(bytes)?;
            Some((Instruction::SetFile(operand), rest))
        }
        DW_LNS_SET_COLUMN => {
            let (operand, rest) = unsigned_leb128(bytes)?;
            Some((Instruction::SetColumn(operand), rest))
        }
        DW_LNS_CONST_ADD_PC => Some((Instruction::ConstAddPc, bytes)),
        DW_LNS_FIXED_ADVANCE_PC => fixed_advance(bytes),
        DW_LNS_NEGATE_STMT
        | DW_LNS_SET_BASIC_BLOCK
        | DW_LNS_SET_PROLOGUE_END
        | DW_LNS_SET_EPILOGUE_BEGIN => { Some((Instruction::Other, bytes)) }
        DW_LNS_SET_ISA => other_instruction(1, bytes),
        _ => {
            let index = opcode as usize - 1;
            let count = if index < header.standard_opcode_lengths.len() {
                header.standard_opcode_lengths[index]
            } else {
                0
            };
            other_instruction(count, bytes)
        }
    }
}

/// The instruction of an extended opcode and its operands; `None` if there is no byte, or the address of
/// `DW_LNE_set_address` does not have eight.
#[tactic(auto, unfolding(crate::specs::Instructions::extended))]
fn extended(bytes: &[u8]) -> Option<Instruction>
    ensures { result ≡ extended bytes.now }
{
    match bytes {
        [] => None,
        [DW_LNE_END_SEQUENCE, ..] => Some(Instruction::EndSequence),
        [DW_LNE_SET_ADDRESS, operands @ ..] if operands.len() == 8 => {
            Some(Instruction::SetAddress(u64_le_at(operands, 0)))
        }
        [DW_LNE_SET_ADDRESS, ..] => None,
        [_, ..] => Some(Instruction::Other),
    }
}

/// An extended instruction, from its length on.
#[tactic(auto, unfolding(crate::specs::Instructions::extended_at))]
fn extended_instruction(bytes: &[u8]) -> Option<(Instruction, &[u8])>
    ensures { option_map (λ x. (x.0, x.1.now)) result ≡ extended_at bytes.now }
{
    let (length, rest) = unsigned_leb128(bytes)?;
    if (rest.len() as u64) < length {
        return None;
    }
    let (own, after) = rest.split_at(length as usize);
    let instruction = extended(own)?;
    Some((instruction, after))
}

/// The instruction that begins the bytes, and the bytes after it; `None` if none can be read.
#[tactic(auto, unfolding(crate::specs::Instructions::instruction_at))]
pub(crate) fn instruction<'a>(
    header: &Header<'_>,
    bytes: &'a [u8],
) -> Option<(Instruction, &'a [u8])>
    ensures { option_map (λ x. (x.0, x.1.now)) result ≡ instruction_at (header_view header.now) bytes.now }
{
    let (opcode, rest) = bytes.split_first()?;
    if *opcode == EXTENDED {
        return extended_instruction(rest);
    }
    if header.opcode_base <= *opcode {
        return Some((Instruction::Special(*opcode), rest));
    }
    standard_instruction(header, *opcode, rest)
}
