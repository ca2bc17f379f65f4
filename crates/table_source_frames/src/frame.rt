//! Frames that were read from a table.

ghost use Rattle.std.specs.Prelude.{◌≡◌};
ghost use Rattle.std.specs.Option.{option_map};
ghost use Rattle.dwarf_lines.specs.PathViews.{path_view};
ghost use Rattle.dwarf_source_frames.specs.FrameViews.{frame_view};
ghost use Rattle.table_source_frames.specs.FrameViews.{owned_frame_view, owned_path_view};

use dwarf_lines::PathParts;
use dwarf_source_frames::SourceFrame;
use heap_memory::Heap;

/// The parts of a path, which it owns.
#[derive(Drop)]
pub struct OwnedPath {
    /// The directory of the compilation.
    pub base: Vec<u8, Heap>,
    /// The directory of the file; empty if it is the directory of the compilation.
    pub directory: Vec<u8, Heap>,
    /// The name of the file.
    pub name: Vec<u8, Heap>,
}

/// A frame, which owns its texts.
#[derive(Drop)]
pub struct OwnedFrame {
    /// The name of its function.
    pub name: Option<Vec<u8, Heap>>,
    /// The path of its file.
    pub path: Option<OwnedPath>,
    pub line: u32,
    pub column: u32,
}

impl OwnedPath {
    /// The same path with its parts borrowed.
    pub fn borrowed(&self) -> PathParts<'_>
        ensures { path_view result ≡ owned_path_view self.now }
    {
        PathParts {
            base: &self.base,
            directory: &self.directory,
            name: &self.name,
        }
    }
}

impl OwnedFrame {
    /// The name, borrowed.
    fn borrowed_name(&self) -> Option<&[u8]>
        ensures { option_map (λ n. n.now) result ≡ option_map (λ n. n.items) self.now.name }
    {
        match &self.name {
            Some(name) => Some(&name[..]),
            None => None,
        }
    }

    /// The path, borrowed.
    fn borrowed_path(&self) -> Option<PathParts<'_>>
        ensures { option_map path_view result ≡ option_map owned_path_view self.now.path }
    {
        match &self.path {
            Some(path) => Some(path.borrowed()),
            None => None,
        }
    }

    /// The same frame with its texts borrowed.
    pub fn borrowed(&self) -> SourceFrame<'_>
        ensures { frame_view result ≡ owned_frame_view self.now }
    {
        SourceFrame {
            name: self.borrowed_name(),
            path: self.borrowed_path(),
            line: self.line,
            column: self.column,
        }
    }
}
