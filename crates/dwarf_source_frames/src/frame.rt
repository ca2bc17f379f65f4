//! Frames and their source locations.

ghost use Rattle.std.specs.Prelude.{◌≡◌};
ghost use Rattle.std.specs.Option.{option_map};
ghost use Rattle.dwarf_entries.specs.EntryViews.{entry_view};
ghost use Rattle.dwarf_encoding.specs.Views.{value_view};
ghost use Rattle.dwarf_lines.specs.PathViews.{path_view};
ghost use Rattle.dwarf_source_frames.specs.FrameViews.{frame_view, lines_view};
ghost use Rattle.dwarf_source_frames.specs.Frames.{constant_of, constant_or_zero, frame_of_row, known_number, path_in};
ghost use Rattle.dwarf_source_frames.specs.Frames.{location_of_call};
ghost use Rattle.dwarf_source_frames.specs.Frames.{location_of_row};

use crate::unit_lines::UnitLines;
use dwarf_encoding::Value;
use dwarf_entries::{Attribute, Entry};
use dwarf_lines::{PathParts, Row};

/// The source location of a frame.
#[derive(Clone, Copy)]
pub struct SourceLocation {
    /// The index of a file among the names of the unit's program.
    pub file: Option<u64>,
    /// A line, from 1 on; 0 if none is known.
    pub line: u32,
    /// A column, from 1 on; 0 if none is known.
    pub column: u32,
}

/// A frame.
#[derive(Clone, Copy)]
pub struct SourceFrame<'a> {
    /// The name of its function.
    pub name: Option<&'a [u8]>,
    /// The path of its file.
    pub path: Option<PathParts<'a>>,
    pub line: u32,
    pub column: u32,
}

/// The constant that a value is; 0 if it is none.
fn constant_or_zero(value: Option<Value<'_>>) -> u64
    ensures { result ≡ constant_or_zero (option_map value_view value.entry) }
{
    match value {
        Some(Value::Constant(number)) => number,
        _ => 0,
    }
}

/// The constant that a value is; `None` if it is none.
fn constant_of(value: Option<Value<'_>>) -> Option<u64>
    ensures { result ≡ constant_of (option_map value_view value.entry) }
{
    match value {
        Some(Value::Constant(number)) => Some(number),
        _ => None,
    }
}

/// A line or a column; 0, which means unknown, for 2^32 and more.
fn known_number(number: u64) -> u32
    ensures { result ≡ known_number number }
{
    if number < 1 << 32 { number as u32 } else { 0 }
}

impl SourceLocation {
    /// The location of a row; unknown without a row.
    pub fn of_row(row: Option<Row>) -> SourceLocation
        ensures { result ≡ location_of_row row }
    {
        match row {
            Some(row) => SourceLocation {
                file: Some(row.registers.file),
                line: known_number(row.registers.line),
                column: known_number(row.registers.column),
            },
            None => SourceLocation {
                file: None,
                line: 0,
                column: 0,
            },
        }
    }

    /// The location of the call that an entry describes.
    pub fn of_call(entry: &Entry<'_>) -> SourceLocation
        ensures { result ≡ location_of_call (entry_view entry.now) }
    {
        SourceLocation {
            file: constant_of(entry.attributes.get(Attribute::CallFile)),
            line: known_number(constant_or_zero(entry.attributes.get(Attribute::CallLine))),
            column: known_number(constant_or_zero(entry.attributes.get(Attribute::CallColumn))),
        }
    }
}

impl<'a> UnitLines<'a> {
    /// The path of a file among the names of the unit's program.
    pub fn path_in(&self, file: Option<u64>) -> Option<PathParts<'a>>
        ensures { option_map path_view result ≡ path_in (lines_view self.now) file }
    {
        let file = file?;
        match &self.names {
            Some(names) => names.path(&self.texts, self.comp_dir, file),
            None => None,
        }
    }
}

impl<'a> UnitLines<'a> {
    /// The frame of a row alone, which has no function.
    pub fn frame_of_row(&self, row: &Row) -> SourceFrame<'a>
        ensures { frame_view result ≡ frame_of_row (lines_view self.now) row.now }
    {
        SourceFrame {
            name: None,
            path: self.path_in(Some(row.registers.file)),
            line: known_number(row.registers.line),
            column: known_number(row.registers.column),
        }
    }
}
