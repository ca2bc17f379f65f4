//! Directories and files of version 5, each with an entry format.

ghost use Rattle.std.specs.Prelude.{◌≡◌, ◌<◌, IfOk, map};
ghost use Rattle.std.specs.Option.{option_map};
ghost use Rattle.dwarf_encoding.specs.Sequences.{counted};
ghost use Rattle.dwarf_encoding.specs.Views.{value_view};
ghost use Rattle.dwarf_lines.specs.Names.{format_pair_at, format_at, name_value_at, with_value, index_of};
ghost use Rattle.dwarf_lines.specs.Names.{fields_from, entry_at, entries_at};
ghost use Rattle.dwarf_lines.specs.NameViews.{name_view, fields_view};

use crate::names::Name;
use dwarf_encoding::dw_form::*;
use dwarf_encoding::{Value, read_value, unsigned_leb128};
use heap_memory::{Heap, NoMemory};

/// The content type code of a path.
const DW_LNCT_PATH: u64 = 1;

/// The content type code of the index of a directory.
const DW_LNCT_DIRECTORY_INDEX: u64 = 2;

/// The fields of an entry that are used here, if it has them.
#[derive(Clone, Copy)]
struct Fields<'a> {
    path: Option<Value<'a>>,
    directory_index: Option<Value<'a>>,
}

/// A pair of an entry format, a content type code and a form, and the bytes after it.
fn format_pair(bytes: &[u8]) -> Option<((u64, u64), &[u8])>
    ensures { option_map (λ x. (x.0, x.1.now)) result ≡ format_pair_at bytes.now }
{
    let (content_type, rest) = unsigned_leb128(bytes)?;
    let (form, rest) = unsigned_leb128(rest)?;
    Some(((content_type, form), rest))
}

/// `count` pairs of an entry format, and the bytes after them; `None` if they cannot be read. The error is `NoMemory`.
fn format_pairs<'a>(
    heap: Heap,
    count: u8,
    bytes: &'a [u8],
) -> Result<Option<(Vec<(u64, u64), Heap>, &'a [u8])>, NoMemory>
    ensures { IfOk result (λ found. option_map (λ x. (x.0.items, x.1.now)) found
        ≡ counted format_pair_at count bytes.now) }
{
    let mut found = Vec::new(heap);
    let mut rest = bytes;
    for index in 0..count {
        let Some((pair, after)) = format_pair(rest) else {
            return Ok(None);
        };
        found.push(pair)?;
        rest = after;
    }
    Ok(Some((found, rest)))
}

/// An entry format, and the bytes after it; `None` if it cannot be read. The error is `NoMemory`.
fn read_format<'a>(
    heap: Heap,
    bytes: &'a [u8],
) -> Result<Option<(Vec<(u64, u64), Heap>, &'a [u8])>, NoMemory>
    ensures { IfOk result (λ found. option_map (λ x. (x.0.items, x.1.now)) found ≡ format_at bytes.now) }
{
    match bytes {
        [] => Ok(None),
        [count, rest @ ..] => format_pairs(heap, *count, rest),
    }
}

/// A value of a form that a name may have, and the bytes after it.
fn name_value(form: u64, bytes: &[u8]) -> Option<(Value<'_>, &[u8])>
    ensures { option_map (λ x. (value_view x.0, x.1.now)) result ≡ name_value_at form bytes.now }
{
    match form {
        DW_FORM_STRING
        | DW_FORM_LINE_STRP
        | DW_FORM_STRP
        | DW_FORM_UDATA
        | DW_FORM_DATA1
        | DW_FORM_DATA2
        | DW_FORM_DATA4
        | DW_FORM_DATA8
        | DW_FORM_DATA16
        | DW_FORM_BLOCK => read_value(5, form, 0, bytes),
        _ => None,
    }
}

/// The fields with one more value; a second value of a content type is ignored.
fn with_value<'a>(fields: Fields<'a>, content_type: u64, value: Value<'a>) -> Fields<'a>
    ensures { fields_view result ≡ with_value (fields_view fields.entry) content_type (value_view value.entry) }
{
    match content_type {
        DW_LNCT_PATH => Fields {
            path: fields.path.or(Some(value)),
            ..fields
        },
        DW_LNCT_DIRECTORY_INDEX => Fields {
            directory_index: fields.directory_index.or(Some(value)),
            ..fields
        },
        _ => fields,
    }
}

/// The values of an entry, and the bytes after it.
fn read_fields<'a>(format: &[(u64, u64)], bytes: &'a [u8]) -> Option<(Fields<'a>, &'a [u8])>
    ensures { option_map (λ x. (fields_view x.0, x.1.now)) result
        ≡ fields_from (record { path = None; directory_index = None }) format.now bytes.now }
{
    let mut fields = Fields {
        path: None,
        directory_index: None,
    };
    let mut rest = bytes;
    for pair in format {
        let Some((value, after)) = name_value(pair.1, rest) else {
            return None;
        };
        fields = with_value(fields, pair.0, value);
        rest = after;
    }
    Some((fields, rest))
}

/// The index that a value is: a constant, or 0.
fn index_of(value: Option<Value<'_>>) -> u64
    ensures { result ≡ index_of (option_map value_view value.entry) }
{
    match value {
        Some(Value::Constant(number)) => number,
        _ => 0,
    }
}

/// An entry of a format, and the bytes after it; `None` if the format has no pairs or a value cannot be read.
#[tactic(auto, unfolding(crate::specs::Names::entry_at))]
fn entry<'a>(format: &[(u64, u64)], bytes: &'a [u8]) -> Option<(Name<'a>, &'a [u8])>
    ensures { option_map (λ x. (name_view x.0, x.1.now)) result ≡ entry_at format.now bytes.now }
{
    if format.is_empty() {
        return None;
    }
    let (fields, rest) = read_fields(format, bytes)?;
    let name = Name {
        name: fields.path.unwrap_or(Value::Other),
        directory: index_of(fields.directory_index),
    };
    Some((name, rest))
}

/// `count` entries of a format, and the bytes after them; `None` if they cannot be read. The error is `NoMemory`.
fn counted_entries<'a>(
    heap: Heap,
    format: &[(u64, u64)],
    count: u64,
    bytes: &'a [u8],
) -> Result<Option<(Vec<Name<'a>, Heap>, &'a [u8])>, NoMemory>
    ensures { IfOk result (λ found. option_map (λ x. (map (λ n. name_view n) x.0.items, x.1.now)) found
        ≡ counted (entry_at format.now) count bytes.now) }
{
    let mut found = Vec::new(heap);
    let mut rest = bytes;
    for index in 0..count {
        let Some((name, after)) = entry(format, rest) else {
            return Ok(None);
        };
        found.push(name)?;
        rest = after;
    }
    Ok(Some((found, rest)))
}

/// The entries of a table, and the bytes after it; `None` if one cannot be read. Each has at least one byte, so time
/// and memory are proportional to the bytes, whatever number of entries is stated. The error is `NoMemory`.
#[tactic(auto, unfolding(crate::specs::Names::entries_at))]
pub(crate) fn read_entries<'a>(
    heap: Heap,
    bytes: &'a [u8],
) -> Result<Option<(Vec<Name<'a>, Heap>, &'a [u8])>, NoMemory>
    ensures { IfOk result (λ found. option_map (λ x. (map (λ n. name_view n) x.0.items, x.1.now)) found
        ≡ entries_at bytes.now) }
{
    let Some((format, rest)) = read_format(heap.share(), bytes)? else {
        return Ok(None);
    };
    let Some((count, rest)) = unsigned_leb128(rest) else {
        return Ok(None);
    };
    counted_entries(heap, &format, count, rest)
}
