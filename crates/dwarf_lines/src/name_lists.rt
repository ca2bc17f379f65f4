//! Directories and files of the versions 2 to 4.

ghost use Rattle.std.specs.Prelude.{◌≡◌, ◌<◌, IfOk, length, map};
ghost use Rattle.std.specs.Option.{option_map};
ghost use Rattle.dwarf_encoding.specs.Sequences.{ended};
ghost use Rattle.dwarf_lines.specs.Names.{directory_or_none_at, listed_name_at};
ghost use Rattle.dwarf_lines.specs.NameViews.{name_view};

use crate::names::Name;
use dwarf_encoding::{Value, read_text, unsigned_leb128};
use heap_memory::{Heap, NoMemory};

/// The index of a file's directory, and the bytes after its time and its length; for a directory 0, and the same bytes.
#[tactic(auto, unfolding(crate::specs::Names::directory_index_at))]
fn directory_index(is_file: bool, bytes: &[u8]) -> Option<(u64, &[u8])>
    ensures { option_map (λ x. (x.0, x.1.now)) result ≡ directory_or_none_at is_file bytes.now }
{
    if !is_file {
        return Some((0, bytes));
    }
    let (index, rest) = unsigned_leb128(bytes)?;
    let (_, rest) = unsigned_leb128(rest)?;
    let (_, rest) = unsigned_leb128(rest)?;
    Some((index, rest))
}

/// A file or a directory, or `None` for the empty text, which ends them; and the bytes after it.
#[tactic(auto, unfolding(crate::specs::Names::listed_name_at))]
fn listed_name<'a>(is_file: bool, bytes: &'a [u8]) -> Option<(Option<Name<'a>>, &'a [u8])>
    ensures { option_map (λ x. (option_map name_view x.0, x.1.now)) result ≡ listed_name_at is_file bytes.now }
{
    let (text, rest) = read_text(bytes)?;
    if text.is_empty() {
        return Some((None, rest));
    }
    let (directory, rest) = directory_index(is_file, rest)?;
    let name = Name {
        name: Value::InlineString(text),
        directory,
    };
    Some((Some(name), rest))
}

/// The files or directories before the empty text that ends them, and the bytes after that text; `None` if they cannot
/// be read. The error is `NoMemory`.
pub(crate) fn read_listed_names<'a>(
    heap: Heap,
    is_file: bool,
    bytes: &'a [u8],
) -> Result<Option<(Vec<Name<'a>, Heap>, &'a [u8])>, NoMemory>
    ensures { IfOk result (λ found. option_map (λ x. (map (λ n. name_view n) x.0.items, x.1.now)) found
        ≡ ended (listed_name_at is_file) bytes.now) }
{
    let mut found = Vec::new(heap);
    let mut rest = bytes;
    'names: while let Some((name, after)) = listed_name(is_file, rest) {
        rest = after;
        match name {
            Some(name) => found.push(name)?,
            None => return Ok(Some((found, rest))),
        }
    }
    Ok(None)
}
