//! The texts, files, scopes and locations of frames, each stored once and named by its number.

ghost use Rattle.std.specs.Prelude.{map};
ghost use Rattle.table_source_frames_build.specs.Kept.{IsKept};

use crate::keys::{FileKey, LocationKey, ScopeKey, TextKey};
use crate::numbers::Numbers;
use dwarf_lines::PathParts;
use heap_memory::{Heap, NoMemory};

/// The texts, files, scopes and locations of frames.
#[derive(Drop)]
pub(crate) struct Kept<'a> {
    pub texts: Numbers<TextKey<'a>>,
    pub files: Numbers<FileKey>,
    pub scopes: Numbers<ScopeKey>,
    pub locations: Numbers<LocationKey>,
    ghost right: { IsKept (record {
      texts = map (λ t. t.text.now) texts;
      files = files;
      scopes = scopes;
      locations = locations;
    }) },
}

impl<'a> Kept<'a> {
    ghost use Rattle.std.specs.Prelude.{◌≡◌, ◌≤◌, ◌<◌, [], ◌∷◌, IfOk, length, map};
    ghost use Rattle.std.specs.Option.{option_map};
    ghost use Rattle.dwarf_lines.specs.PathViews.{path_view};
    ghost use Rattle.dwarf_source_frames.specs.FrameViews.{frame_view};
    ghost use Rattle.table_source_frames_build.specs.Kept.{Grows, IsFile, IsKeyOf, IsLocation, IsName, IsScope};
    ghost use Rattle.table_source_frames_build.specs.Kept.{IsScopeKey, IsText, caller_in, chain_at, frame_in};
    ghost use Rattle.table_source_frames_build.specs.Kept.{frame_of_key};
    ghost use Rattle.table_source_frames_build.specs.KeptViews.{kept_view};
    ghost use Rattle.table_source_frames_build.specs.Numbering.{IsNumber};

    /// No text, file, scope or location.
    pub fn new(heap: Heap) -> Kept<'a>
        ensures { kept_view result ≡ record { texts = []; files = []; scopes = []; locations = [] } }
    {
        Kept {
            texts: Numbers::new(heap.share()),
            files: Numbers::new(heap.share()),
            scopes: Numbers::new(heap.share()),
            locations: Numbers::new(heap),
        }
    }

    /// The number of a text.
    fn text(&mut self, text: &'a [u8]) -> Result<u32, NoMemory>
        ensures grows { Grows (kept_view self.old) (kept_view self.new) }
        ensures is { IfOk result (λ number. IsText (kept_view self.new) number text.now) }
    {
        self.texts.number(TextKey::of(text))
    }

    /// The number of a name; 0 for no name.
    pub fn name(&mut self, name: Option<&'a [u8]>) -> Result<u32, NoMemory>
        ensures grows { Grows (kept_view self.old) (kept_view self.new) }
        ensures is { IfOk result (λ number. IsName (kept_view self.new) number (option_map (λ n. n.now) name.entry)) }
    {
        match name {
            Some(name) => self.text(name),
            None => Ok(0),
        }
    }

    /// The key of a file.
    fn file_key(&mut self, path: &PathParts<'a>) -> Result<FileKey, NoMemory>
        ensures grows { Grows (kept_view self.old) (kept_view self.new) }
        ensures is { IfOk result (λ key. IsKeyOf (kept_view self.new) key (path_view path.now)) }
    {
        let base = self.text(path.base)?;
        let directory = self.text(path.directory)?;
        let name = self.text(path.name)?;
        Ok(FileKey {
            base,
            directory,
            name,
        })
    }

    /// The number of a file; 0 for no file.
    pub fn file(&mut self, path: Option<PathParts<'a>>) -> Result<u32, NoMemory>
        ensures grows { Grows (kept_view self.old) (kept_view self.new) }
        ensures is { IfOk result (λ number. IsFile (kept_view self.new) number (option_map path_view path.entry)) }
    {
        let Some(path) = path else {
            return Ok(0);
        };
        let key = self.file_key(&path)?;
        self.files.number(key)
    }

    /// The number of the scope with this key.
    fn scope(&mut self, key: ScopeKey) -> Result<u32, NoMemory>
        requires { IsScopeKey (kept_view self.old) key }
        ensures grows { Grows (kept_view self.old) (kept_view self.new) }
        ensures is { IfOk result (λ number. IsScope (kept_view self.new) number key) }
    {
        self.scopes.number(key)
    }

    /// The number of the location with this key.
    fn location(&mut self, key: LocationKey) -> Result<u32, NoMemory>
        requires { IsNumber (length (kept_view self.old).scopes) key.scope }
        ensures grows { Grows (kept_view self.old) (kept_view self.new) }
        ensures is { IfOk result (λ number. IsLocation (kept_view self.new) number
            (frame_of_key (kept_view self.old) key
            ∷ chain_at (kept_view self.old) (caller_in (kept_view self.old) key))) }
    {
        self.locations.number(key)
    }

    /// The number of the location of a scope at a line and a column.
    pub fn location_number(
        &mut self,
        key: ScopeKey,
        line: u32,
        column: u32,
    ) -> Result<u32, NoMemory>
        requires { IsScopeKey (kept_view self.old) key }
        ensures grows { Grows (kept_view self.old) (kept_view self.new) }
        ensures is { IfOk result (λ number. IsLocation (kept_view self.new) number
            (frame_in (kept_view self.old) key line column ∷ chain_at (kept_view self.old) key.caller)) }
    {
        let scope = self.scope(key)?;
        self.location(LocationKey {
            scope,
            line,
            column,
        })
    }
}
