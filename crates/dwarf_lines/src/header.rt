//! The header of a line number program (DWARF 5, section 6.2.4).

ghost use Rattle.std.specs.Prelude.{◌≡◌, ◌+◌, ◌≤◌, ◌<◌, length, IfSome, true};
ghost use Rattle.std.specs.Option.{option_map};
ghost use Rattle.dwarf_lines.specs.Header.{version, header_length_offset};
ghost use Rattle.dwarf_lines.specs.Header.{default_is_stmt_offset, opcode_base, names_offset, program_offset};
ghost use Rattle.dwarf_lines.specs.Header.{has_header, program_of, name_bytes};

use dwarf_encoding::{is_64_bit, u16_le_at, u32_le_at};

/// The fields of a program's header that the machine uses. They have the standard's names.
#[derive(Clone, Copy)]
pub struct Header<'a> {
    pub minimum_instruction_length: u8,
    /// A signed number, as its byte.
    pub line_base: u8,
    /// It is not 0.
    pub line_range: u8,
    pub opcode_base: u8,
    /// The number of LEB128 operands of each standard opcode, from opcode 1 on.
    pub standard_opcode_lengths: &'a [u8],
}

/// A header, and the bytes of its program.
#[derive(Clone, Copy)]
pub struct Program<'a> {
    pub header: Header<'a>,
    /// The instructions, up to the end of the unit.
    pub bytes: &'a [u8],
}

pub(crate) fn version(unit: &[u8]) -> u16
    requires { 6 ≤ length unit.now }
    ensures { result ≡ version unit.now }
{
    u16_le_at(unit, 4)
}

fn header_length_offset(unit: &[u8]) -> usize
    requires { 6 ≤ length unit.now }
    ensures value { result ≡ header_length_offset unit.now }
    ensures small { result ≤ 8 }
{
    if version(unit) == 5 { 8 } else { 6 }
}

fn default_is_stmt_offset(unit: &[u8]) -> usize
    requires { 6 ≤ length unit.now }
    ensures value { result ≡ default_is_stmt_offset unit.now }
    ensures small { result ≤ 14 }
{
    header_length_offset(unit) + if version(unit) >= 4 { 6 } else { 5 }
}

/// The offset of the names of directories and files.
fn names_offset(unit: &[u8]) -> usize
    requires fixed { 6 ≤ length unit.now }
    requires fields { default_is_stmt_offset unit.now + 4 ≤ length unit.now }
    ensures { result ≡ names_offset unit.now }
{
    let offset = default_is_stmt_offset(unit);
    let lengths = unit[offset + 3].saturating_sub(1);
    offset + 4 + lengths as usize
}

/// The offset of the program.
fn program_offset(unit: &[u8]) -> usize
    requires fixed { 6 ≤ length unit.now }
    requires fields { default_is_stmt_offset unit.now + 4 ≤ length unit.now }
    ensures { result ≡ program_offset unit.now }
{
    let offset = header_length_offset(unit);
    offset + 4 + u32_le_at(unit, offset) as usize
}

/// Whether a unit has a header that can be read here.
pub(crate) fn has_header(unit: &[u8]) -> bool
    ensures { result ≡ has_header unit.now }
{
    if unit.len() < 6 || is_64_bit(unit) {
        return false;
    }
    let version = version(unit);
    let offset = default_is_stmt_offset(unit);
    if version < 2 || 5 < version || unit.len() < offset + 4 {
        return false;
    }
    names_offset(unit) <= program_offset(unit)
        && program_offset(unit) <= unit.len()
        && 0 < unit[offset + 2]
        && (version < 4 || unit[header_length_offset(unit) + 5] == 1)
}

/// The bytes of the names of directories and files.
pub(crate) fn name_bytes(unit: &[u8]) -> &[u8]
    requires { has_header unit.now ≡ true }
    ensures { result.now ≡ name_bytes unit.now }
{
    let offset = names_offset(unit);
    let (_, rest) = unit.split_at(offset);
    rest.split_at(program_offset(unit) - offset).0
}

impl<'a> Program<'a> {
    ghost use Rattle.dwarf_lines.specs.Views.{program_view};

    /// The program of a unit of `__debug_line`, with its initial length; `None` if its header cannot be read here: it
    /// is in the 64-bit format, its version is not 2 to 5, its fields pass the beginning of its program, `line_range`
    /// is 0, or `maximum_operations_per_instruction` is not 1.
    #[tactic(auto, unfolding(crate::specs::Header::program_of))]
    pub fn of(unit: &'a [u8]) -> Option<Program<'a>>
        ensures value { option_map (λ p. program_view p) result ≡ program_of unit.now }
        ensures range { IfSome result (λ p. 0 < p.header.line_range) }
    {
        if !has_header(unit) {
            return None;
        }
        let offset = default_is_stmt_offset(unit);
        let opcode_base = unit[offset + 3];
        let (_, lengths) = unit.split_at(offset + 4);
        let (_, bytes) = unit.split_at(program_offset(unit));
        let header = Header {
            minimum_instruction_length: unit[header_length_offset(unit) + 4],
            line_base: unit[offset + 1],
            line_range: unit[offset + 2],
            opcode_base,
            standard_opcode_lengths: lengths.split_at(opcode_base.saturating_sub(1) as usize).0,
        };
        Some(Program { header, bytes })
    }
}
