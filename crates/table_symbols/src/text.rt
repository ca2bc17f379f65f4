//! The bytes of a table, part by part.

ghost use Rattle.std.specs.Prelude.{◌≡◌, ◌++◌, ◌+◌, ◌-◌, ◌<◌, ◌^◌, OnOk, length, flat_map, All};
ghost use Rattle.std.specs.Int.{w64, to_be_bytes};
ghost use Rattle.macho_image.specs.SectionViews.{section_view};
ghost use Rattle.table_symbols.specs.Rows.{IsRow, row_bytes, rows_bytes};
ghost use Rattle.table_symbols.specs.Table.{base_flag, base_or_zero, names_of, padded, section_bytes};

use heap_memory::{Heap, NoMemory};
use macho_image::Section;
use macho_symbols::Row;

/// The size of a name of a section in a table.
const NAME_LEN: usize = 16;

/// Adds a number as eight bytes.
fn push_u64(text: &mut Vec<u8, Heap>, number: u64) -> Result<(), NoMemory>
    ensures { OnOk result (text.new.items ≡ text.old.items ++ to_be_bytes w64 number) }
{
    text.extend_from_slice(&number.to_be_bytes())?;
    Ok(())
}

/// Adds whether there is a vmaddr, and the vmaddr, or 0.
fn push_base(text: &mut Vec<u8, Heap>, base: Option<u64>) -> Result<(), NoMemory>
    ensures { OnOk result (text.new.items
        ≡ (text.old.items ++ to_be_bytes w64 (base_flag base)) ++ to_be_bytes w64 (base_or_zero base)) }
{
    push_u64(text, u64::from(base.is_some()))?;
    push_u64(text, base.unwrap_or(0))
}

/// Adds a name of a section, padded with zeros.
fn push_name(text: &mut Vec<u8, Heap>, name: &[u8]) -> Result<(), NoMemory>
    ensures { OnOk result (text.new.items ≡ text.old.items ++ padded name.now) }
{
    let zeros = [0; NAME_LEN];
    text.extend_from_slice(name)?;
    text.extend_from_slice(&zeros[name.len().min(NAME_LEN)..])?;
    Ok(())
}

/// Adds the names of a section.
fn push_section(text: &mut Vec<u8, Heap>, section: &Section<'_>) -> Result<(), NoMemory>
    ensures { OnOk result (text.new.items
        ≡ text.old.items ++ section_bytes (names_of (section_view section.now))) }
{
    push_name(text, section.segment)?;
    push_name(text, section.section)
}

/// Adds the names of these sections.
pub(crate) fn push_sections(
    text: &mut Vec<u8, Heap>,
    sections: &[Section<'_>],
) -> Result<(), NoMemory>
    ensures { OnOk result (text.new.items
        ≡ text.old.items ++ flat_map (λ s. section_bytes (names_of (section_view s))) sections.now) }
{
    for section in sections {
        push_section(text, section)?;
    }
    Ok(())
}

/// Adds a row.
fn push_row(text: &mut Vec<u8, Heap>, row: Row) -> Result<(), NoMemory>
    ensures fits { IsRow row }
    ensures pushed { OnOk result (text.new.items ≡ text.old.items ++ row_bytes row) }
{
    text.extend_from_slice(&row.start.to_be_bytes())?;
    text.extend_from_slice(&row.value.to_be_bytes())?;
    text.extend_from_slice(&row.n_strx.to_be_bytes())?;
    text.push(row.sect)?;
    Ok(())
}

/// Adds these rows.
pub(crate) fn push_rows(text: &mut Vec<u8, Heap>, rows: &[Row]) -> Result<(), NoMemory>
    ensures fit { OnOk result (All IsRow rows.now) }
    ensures pushed { OnOk result (text.new.items ≡ text.old.items ++ rows_bytes rows.now) }
{
    for row in rows {
        push_row(text, *row)?;
    }
    Ok(())
}

/// Adds the head of a table.
pub(crate) fn push_head(
    text: &mut Vec<u8, Heap>,
    base: Option<u64>,
    sections: usize,
    rows: usize,
    strings: usize,
    lines: usize,
) -> Result<(), NoMemory>
    ensures base { base_or_zero base < 2 ^ 64 }
    ensures pushed { OnOk result (text.new.items ≡ text.old.items ++ (to_be_bytes w64 (base_flag base)
        ++ (to_be_bytes w64 (base_or_zero base)
        ++ (to_be_bytes w64 sections ++ (to_be_bytes w64 rows
        ++ (to_be_bytes w64 strings ++ to_be_bytes w64 lines)))))) }
{
    push_base(text, base)?;
    push_u64(text, sections as u64)?;
    push_u64(text, rows as u64)?;
    push_u64(text, strings as u64)?;
    push_u64(text, lines as u64)?;
    Ok(())
}
