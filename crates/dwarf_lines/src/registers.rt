//! The registers of the machine, and the rows that it appends (DWARF 5, section 6.2.2).

ghost use Rattle.std.specs.Prelude.{◌≡◌, ◌<◌};
ghost use Rattle.dwarf_lines.specs.Machine.{signed_byte};

use crate::header::Header;
use crate::instruction::Instruction;

/// The registers for the address and the source location of a row. The standard's other registers change none of them.
#[derive(Clone, Copy, Debug, PartialEq, Eq)]
pub struct Registers {
    /// The address of an instruction of the code.
    pub address: u64,
    /// The number of a file.
    pub file: u64,
    /// A line, from 1 on; 0 if none is known.
    pub line: u64,
    /// A column, from 1 on; 0 if none is known.
    pub column: u64,
}

/// A row of the line number table.
#[derive(Clone, Copy, Debug, PartialEq, Eq)]
pub struct Row {
    pub registers: Registers,
    /// Whether the address is the first after a sequence of instructions of the code.
    pub end_sequence: bool,
}

/// The registers at the beginning of each sequence.
pub(crate) const INITIAL: Registers = Registers {
    address: 0,
    file: 1,
    line: 1,
    column: 0,
};

/// A signed byte, as its two's complement of 64 bits.
fn signed_byte(byte: u8) -> u64
    ensures { result ≡ signed_byte byte }
{
    if byte < 128 {
        u64::from(byte)
    } else {
        u64::MAX - 255 + u64::from(byte)
    }
}

impl Registers {
    ghost use Rattle.dwarf_lines.specs.Machine.{advanced, applied};
    ghost use Rattle.dwarf_lines.specs.Views.{header_view};

    /// The address after `operations` operations.
    fn advanced(&self, header: &Header<'_>, operations: u64) -> u64
        ensures { result ≡ advanced (header_view header.now) self.now operations }
    {
        let advance = u64::from(header.minimum_instruction_length).wrapping_mul(operations);
        self.address.wrapping_add(advance)
    }

    /// The registers after an instruction, before `DW_LNE_end_sequence` resets them.
    #[tactic(auto, unfolding(crate::specs::Machine::applied))]
    pub(crate) fn applied(self, header: &Header<'_>, instruction: Instruction) -> Registers
        requires { 0 < header.now.line_range }
        ensures { result ≡ applied (header_view header.now) self instruction }
    {
        match instruction {
            Instruction::Special(opcode) => self.special(header, opcode),
            Instruction::AdvancePc(operand) => Registers {
                address: self.advanced(header, operand),
                ..self
            },
            Instruction::AdvanceLine(operand) => Registers {
                line: self.line.wrapping_add(operand),
                ..self
            },
            Instruction::SetFile(operand) => Registers {
                file: operand,
                ..self
            },
            Instruction::SetColumn(operand) => Registers {
                column: operand,
                ..self
            },
            Instruction::ConstAddPc => {
                let operations = 255u8.saturating_sub(header.opcode_base) / header.line_range;
                Registers {
                    address: self.advanced(header, u64::from(operations)),
                    ..self
                }
            }
            Instruction::FixedAdvancePc(operand) => Registers {
                address: self.address.wrapping_add(u64::from(operand)),
                ..self
            },
            Instruction::SetAddress(operand) => Registers {
                address: operand,
                ..self
            },
            Instruction::Copy | Instruction::EndSequence | Instruction::Other => self,
        }
    }

    /// The registers after a special opcode.
    #[tactic(auto, unfolding(crate::specs::Machine::applied))]
    fn special(self, header: &Header<'_>, opcode: u8) -> Registers
        requires { 0 < header.now.line_range }
        ensures { result ≡ applied (header_view header.now) self (Instruction.Special opcode) }
    {
        let adjusted = opcode.saturating_sub(header.opcode_base);
        let operations = u64::from(adjusted / header.line_range);
        let lines = u64::from(adjusted % header.line_range);
        Registers {
            address: self.advanced(header, operations),
            line: self
                .line
                .wrapping_add(signed_byte(header.line_base))
                .wrapping_add(lines),
            ..self
        }
    }
}
