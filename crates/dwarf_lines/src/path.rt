//! The paths of files (DWARF 5, sections 6.2.4 and 6.2.4.1).

ghost use Rattle.std.specs.Prelude.{◌≡◌, IfOk, map};
ghost use Rattle.std.specs.Option.{option_map};
ghost use Rattle.dwarf_encoding.specs.TextViews.{text_sections_view};
ghost use Rattle.dwarf_lines.specs.NameViews.{name_view, names_view};
ghost use Rattle.dwarf_lines.specs.Paths.{name_at, directory_text, base_text, parts_of, is_absolute};
ghost use Rattle.dwarf_lines.specs.Paths.{in_folder, path_of};
ghost use Rattle.dwarf_lines.specs.PathViews.{path_view};

use crate::names::{Name, Names};
use dwarf_encoding::TextSections;
use heap_memory::{Heap, NoMemory};

/// The parts of a path, which are joined on demand. An unknown part is empty.
#[derive(Clone, Copy)]
pub struct PathParts<'a> {
    /// The directory of the compilation.
    pub base: &'a [u8],
    /// The directory of the file; empty if it is the directory of the compilation.
    pub directory: &'a [u8],
    /// The name of the file.
    pub name: &'a [u8],
}

/// The name at an index: the first has the index 0 in version 5, and 1 in earlier versions.
fn name_at<'a>(version: u16, names: &[Name<'a>], index: u64) -> Option<Name<'a>>
    ensures { option_map name_view result ≡ name_at version (map (λ n. name_view n) names.now) index }
{
    let index = if version == 5 {
        index
    } else {
        index.checked_sub(1)?
    };
    if (names.len() as u64) <= index {
        return None;
    }
    Some(names[index as usize])
}

/// The text of the directory at an index; empty if there is none.
fn directory_text<'a>(sections: &TextSections<'a>, names: &Names<'a>, index: u64) -> &'a [u8]
    ensures { result.now ≡ directory_text (text_sections_view sections.now) (names_view names.now) index }
{
    match name_at(names.version, &names.directories, index) {
        Some(directory) => sections.text_of(&directory.name).unwrap_or(&[]),
        None => &[],
    }
}

/// The directory of the compilation.
fn base_text<'a>(sections: &TextSections<'a>, comp_dir: &'a [u8], names: &Names<'a>) -> &'a [u8]
    ensures { result.now ≡ base_text (text_sections_view sections.now) comp_dir.now (names_view names.now) }
{
    if names.version == 5 {
        directory_text(sections, names, 0)
    } else {
        comp_dir
    }
}

impl<'a> Names<'a> {
    /// The parts of the path of the file at an index, as rows and DW_AT_call_file have it; `None` if there is no such
    /// file or it has no name. `comp_dir` is DW_AT_comp_dir of the unit, or empty.
    pub fn path(
        &self,
        sections: &TextSections<'a>,
        comp_dir: &'a [u8],
        index: u64,
    ) -> Option<PathParts<'a>>
        ensures { option_map path_view result
            ≡ parts_of (text_sections_view sections.now) comp_dir.now (names_view self.now) index }
    {
        let file = name_at(self.version, &self.files, index)?;
        let name = sections.text_of(&file.name)?;
        let directory: &'a [u8] = if file.directory == 0 {
            &[]
        } else {
            directory_text(sections, self, file.directory)
        };
        let base = base_text(sections, comp_dir, self);
        Some(PathParts {
            base,
            directory,
            name,
        })
    }
}

/// Whether a path begins with `/`.
fn is_absolute(path: &[u8]) -> bool
    ensures { result ≡ is_absolute path.now }
{
    match path {
        [] => false,
        [first, ..] => *first == b'/',
    }
}

/// A name in a folder.
fn in_folder(heap: Heap, folder: &[u8], name: &[u8]) -> Result<Vec<u8, Heap>, NoMemory>
    ensures { IfOk result (λ path. path.items ≡ in_folder folder.now name.now) }
{
    let mut path = Vec::new(heap);
    if is_absolute(name) || folder.is_empty() {
        path.extend_from_slice(name)?;
        return Ok(path);
    }
    path.extend_from_slice(folder)?;
    if name.is_empty() {
        return Ok(path);
    }
    if folder[folder.len() - 1] != b'/' {
        path.push(b'/')?;
    }
    path.extend_from_slice(name)?;
    Ok(path)
}

impl<'a> PathParts<'a> {
    /// The path: the name in the directory, in the directory of the compilation, unless one begins with `/`.
    pub fn joined(&self, heap: Heap) -> Result<Vec<u8, Heap>, NoMemory>
        ensures { IfOk result (λ path. path.items ≡ path_of (path_view self.now)) }
    {
        let folder = in_folder(heap.share(), self.base, self.directory)?;
        let path = in_folder(heap, &folder, self.name)?;
        Ok(path)
    }
}
