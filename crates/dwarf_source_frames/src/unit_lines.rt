//! The parts of a unit's line number program that its frames need.

ghost use Rattle.std.specs.Prelude.{◌≡◌, ◌<◌, IfOk, IfSome};
ghost use Rattle.std.specs.Option.{option_map, option_and_then};
ghost use Rattle.dwarf_encoding.specs.Views.{value_view};
ghost use Rattle.dwarf_lines.specs.NameViews.{names_view};
ghost use Rattle.dwarf_lines.specs.Header.{program_of};
ghost use Rattle.dwarf_lines.specs.Names.{names_of};
ghost use Rattle.dwarf_lines.specs.Views.{program_view};
ghost use Rattle.dwarf_source_frames.specs.FrameViews.{lines_view};
ghost use Rattle.dwarf_source_frames.specs.SectionsViews.{sections_view};
ghost use Rattle.dwarf_source_frames.specs.UnitLines.{comp_dir_of, line_unit, lines_of, program_offset};
ghost use Rattle.dwarf_source_frames.specs.UnitViews.{unit_view};

use crate::debug_sections::DebugSections;
use crate::debug_unit::DebugUnit;
use dwarf_encoding::{TextSections, Units, Value};
use dwarf_entries::Attribute;
use dwarf_lines::{Names, Program};
use heap_memory::{Heap, NoMemory};

/// The texts of a unit, and its program with the names of its files.
#[derive(Drop)]
pub struct UnitLines<'a> {
    pub texts: TextSections<'a>,
    /// DW_AT_comp_dir; empty if the unit has none.
    pub comp_dir: &'a [u8],
    pub names: Option<Names<'a>>,
    pub program: Option<Program<'a>>,
}

/// The offset in `__debug_line` that DW_AT_stmt_list names.
fn program_offset(unit: &DebugUnit<'_>, value: Option<Value<'_>>) -> Option<u64>
    ensures { result ≡ program_offset (unit_view unit.now) (option_map value_view value.entry) }
{
    match value {
        Some(Value::SectionOffset(offset)) => Some(offset),
        Some(Value::Constant(offset)) if unit.header.version < 4 => Some(offset),
        _ => None,
    }
}

/// The unit of `__debug_line` that a unit names.
#[tactic(auto, unfolding(crate::specs::UnitLines::line_unit))]
fn line_unit<'a>(
    sections: &DebugSections<'a>,
    lines: &Units<'a>,
    unit: &DebugUnit<'a>,
) -> Option<&'a [u8]>
    requires { lines.now ≡ sections.now.debug_line.now }
    ensures { option_map (λ u. u.now) result ≡ line_unit (sections_view sections.now) (unit_view unit.now) }
{
    let offset = program_offset(unit, unit.first.attributes.get(Attribute::StmtList))?;
    lines.at(offset)
}

/// DW_AT_comp_dir of a unit.
#[tactic(auto, unfolding(crate::specs::UnitLines::comp_dir_of))]
fn comp_dir_of<'a>(sections: &DebugSections<'a>, unit: &DebugUnit<'a>) -> &'a [u8]
    ensures { result.now ≡ comp_dir_of (sections_view sections.now) (unit_view unit.now) }
{
    match unit.first.attributes.get(Attribute::CompDir) {
        Some(value) => unit.texts(sections).text_of(&value).unwrap_or(&[]),
        None => &[],
    }
}

/// The names of a unit of `__debug_line`; `None` without a unit.
fn names_in<'a>(heap: Heap, unit: Option<&'a [u8]>) -> Result<Option<Names<'a>>, NoMemory>
    ensures { IfOk result (λ names. option_map names_view names
        ≡ option_and_then names_of (option_map (λ u. u.now) unit.entry)) }
{
    match unit {
        Some(unit) => Names::read(heap, unit),
        None => Ok(None),
    }
}

/// The program of a unit of `__debug_line`; `None` without a unit.
fn program_in(unit: Option<&[u8]>) -> Option<Program<'_>>
    ensures value { option_map (λ p. program_view p) result
        ≡ option_and_then program_of (option_map (λ u. u.now) unit.entry) }
    ensures range { IfSome result (λ p. 0 < p.header.line_range) }
{
    match unit {
        Some(unit) => Program::of(unit),
        None => None,
    }
}

impl<'a> DebugUnit<'a> {
    /// The offset of the program of the unit in `__debug_line`.
    pub fn program_offset(&self) -> Option<u64>
        ensures { result ≡ program_offset (unit_view self.now) (unit_view self.now).first.attributes.stmt_list }
    {
        program_offset(self, self.first.attributes.get(Attribute::StmtList))
    }
}

impl<'a> UnitLines<'a> {
    /// The parts that a unit's frames need; `lines` are the units of `__debug_line`. Time and memory are proportional
    /// to the names of its program.
    pub fn read(
        heap: Heap,
        sections: &DebugSections<'a>,
        lines: &Units<'a>,
        unit: &DebugUnit<'a>,
    ) -> Result<UnitLines<'a>, NoMemory>
        requires { lines.now ≡ sections.now.debug_line.now }
        ensures value { IfOk result (λ read.
            lines_view read ≡ lines_of (sections_view sections.now) (unit_view unit.now)) }
        ensures range { IfOk result (λ read. IfSome read.program (λ p. 0 < p.header.line_range)) }
    {
        let line_unit = line_unit(sections, lines, unit);
        let names = names_in(heap, line_unit)?;
        let program = program_in(line_unit);
        Ok(UnitLines {
            texts: unit.texts(sections),
            comp_dir: comp_dir_of(sections, unit),
            names,
            program,
        })
    }
}
