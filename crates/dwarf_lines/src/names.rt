//! The names of directories and files in a header (DWARF 5, section 6.2.4).

ghost use Rattle.std.specs.Prelude.{◌≡◌, ◌<◌, IfOk};
ghost use Rattle.std.specs.Option.{option_map};
ghost use Rattle.dwarf_lines.specs.Names.{names_of, names_to_version_4, names_of_version_5};
ghost use Rattle.dwarf_lines.specs.NameViews.{names_view};

use crate::header::{has_header, name_bytes, version};
use crate::name_entries::read_entries;
use crate::name_lists::read_listed_names;
use dwarf_encoding::Value;
use heap_memory::{Heap, NoMemory};

/// A directory or a file.
#[derive(Clone, Copy)]
pub struct Name<'a> {
    /// Its text, or the reference to it; another value if it has no name.
    pub name: Value<'a>,
    /// The index of the directory of a file; 0 for a directory.
    pub directory: u64,
}

/// The names of a header, in its order: the first has the index 0 in version 5, and 1 in earlier versions.
#[derive(Drop)]
pub struct Names<'a> {
    pub version: u16,
    pub directories: Vec<Name<'a>, Heap>,
    pub files: Vec<Name<'a>, Heap>,
}

/// `include_directories` and `file_names` of the versions 2 to 4.
fn read_to_version_4<'a>(
    heap: Heap,
    version: u16,
    bytes: &'a [u8],
) -> Result<Option<Names<'a>>, NoMemory>
    ensures { IfOk result (λ names. option_map names_view names ≡ names_to_version_4 version bytes.now) }
{
    let Some((directories, rest)) = read_listed_names(heap.share(), false, bytes)? else {
        return Ok(None);
    };
    let Some((files, _)) = read_listed_names(heap, true, rest)? else {
        return Ok(None);
    };
    Ok(Some(Names {
        version,
        directories,
        files,
    }))
}

/// The tables of directories and files of version 5.
fn read_version_5<'a>(heap: Heap, bytes: &'a [u8]) -> Result<Option<Names<'a>>, NoMemory>
    ensures { IfOk result (λ names. option_map names_view names ≡ names_of_version_5 bytes.now) }
{
    let Some((directories, rest)) = read_entries(heap.share(), bytes)? else {
        return Ok(None);
    };
    let Some((files, _)) = read_entries(heap, rest)? else {
        return Ok(None);
    };
    Ok(Some(Names {
        version: 5,
        directories,
        files,
    }))
}

impl<'a> Names<'a> {
    /// The names in the header of a unit of `__debug_line`; `None` if the header or a name cannot be read. The time is
    /// that of reading the header, and the memory is that of the names. The error is `NoMemory`.
    #[tactic(auto, unfolding(crate::specs::Names::names_of))]
    pub fn read(heap: Heap, unit: &'a [u8]) -> Result<Option<Names<'a>>, NoMemory>
        ensures { IfOk result (λ names. option_map names_view names ≡ names_of unit.now) }
    {
        if !has_header(unit) {
            return Ok(None);
        }
        let bytes = name_bytes(unit);
        if version(unit) == 5 {
            return read_version_5(heap, bytes);
        }
        read_to_version_4(heap, version(unit), bytes)
    }
}
