//! The rows of a program, as an iterator.

ghost use Rattle.std.specs.Prelude.{◌≡◌, ◌<◌};
ghost use Rattle.std.specs.Option.{option_to_list};
ghost use Rattle.dwarf_lines.specs.Machine.{initial, rows_from, row_with, registers_with};
ghost use Rattle.dwarf_lines.specs.Views.{header_view};

use crate::header::{Header, Program};
use crate::instruction::Instruction;
use crate::reading::instruction;
use crate::registers::{INITIAL, Registers, Row};
use std::marker::Model;

/// The rows of a program, in the order in which the machine appends them, up to the first instruction that cannot be
/// read. It allocates no memory. A contract sees the list of the rows that are left.
#[derive(Drop)]
pub struct Rows<'a> {
    header: Header<'a>,
    registers: Registers,
    rest: &'a [u8],
}

impl<'a> Model for Rows<'a> {
    ghost use Rattle.std.specs.Prelude.{List, ◌<◌};
    ghost use Rattle.dwarf_lines.specs.declared.registers.Row.{Row};
    ghost use Rattle.dwarf_lines.specs.Machine.{rows_from};
    ghost use Rattle.dwarf_lines.specs.Views.{header_view};

    ghost Value = { List Row };

    ghost view = { λ r. rows_from (header_view r.header) r.registers r.rest.now };

    ghost invariant = { λ r. 0 < r.header.line_range };
}

/// The row that an instruction appends, if these are the registers after it.
fn row_with(registers: Registers, instruction: Instruction) -> Option<Row>
    ensures { option_to_list result ≡ row_with registers instruction }
{
    match instruction {
        Instruction::Special(_) | Instruction::Copy => Some(Row {
            registers,
            end_sequence: false,
        }),
        Instruction::EndSequence => Some(Row {
            registers,
            end_sequence: true,
        }),
        _ => None,
    }
}

/// The registers before the next instruction, if these are the registers after an instruction.
fn registers_with(registers: Registers, instruction: Instruction) -> Registers
    ensures { result ≡ registers_with registers instruction }
{
    match instruction {
        Instruction::EndSequence => INITIAL,
        _ => registers,
    }
}

impl<'a> Rows<'a> {
    /// All rows of a program.
    pub fn of(program: &Program<'a>) -> Rows<'a>
        requires { 0 < program.now.header.line_range }
        ensures { result ≡ rows_from (header_view program.now.header) initial program.now.bytes.now }
    {
        Rows {
            header: program.header,
            registers: INITIAL,
            rest: program.bytes,
        }
    }
}

#[tactic(auto, using(crate::proofs::RowLemmas::rows_none))]
impl<'a> Iterator for Rows<'a> {
    type Item = Row;

    ghost use Rattle.std.specs.Iterator.{YieldsFirst, item_count};

    ghost next_gives = { YieldsFirst (λ r. r) };

    ghost remaining = { item_count (λ r. r) };

    fn next(&mut self) -> Option<Row> {
        'instructions: loop {
            let (instruction, rest) = instruction(&self.header, self.rest)?;
            let registers = self.registers.applied(&self.header, instruction);
            self.rest = rest;
            self.registers = registers_with(registers, instruction);
            if let Some(row) = row_with(registers, instruction) {
                return Some(row);
            }
        }
    }
}
