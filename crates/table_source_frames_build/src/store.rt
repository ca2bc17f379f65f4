//! The frames of addresses, accepted in any order.

ghost use Rattle.std.specs.Prelude.{◌≡◌, ◌∷◌, ◌++◌, ℕ, IfOk, List, OnErr, OnOk, Option, []};

use crate::kept::Kept;
use crate::keys::ScopeKey;
use crate::step::Step;
use dwarf_lines::PathParts;
use heap_memory::{Heap, NoMemory};
use std::marker::Model;

/// The frames of addresses. A contract sees the frames of each address, in the order of arrival, and the numbered
/// texts, files, scopes and locations.
#[derive(Drop)]
pub struct LineStore<'a> {
    pub(crate) kept: Kept<'a>,
    pub(crate) steps: Vec<Step, Heap>,
}

impl<'a> Model for LineStore<'a> {
    ghost use Rattle.std.specs.Prelude.{map};
    ghost use Rattle.table_source_frames_build.specs.KeptViews.{kept_view};
    ghost use Rattle.table_source_frames_build.specs.StepViews.{HaveLocations, step_of};
    ghost use Rattle.table_source_frames_build.specs.StoreViews.{StoreRecord};

    ghost Value = { StoreRecord };

    ghost view = { λ s. record {
      taken = map (step_of (kept_view s.kept)) s.steps.items;
      kept = kept_view s.kept;
    } };

    ghost invariant = { λ s. HaveLocations (kept_view s.kept) s.steps.items };
}

impl<'a> LineStore<'a> {
    ghost use Rattle.std.specs.Option.{option_map};
    ghost use Rattle.dwarf_lines.specs.Paths.{PathRecord};
    ghost use Rattle.dwarf_lines.specs.PathViews.{path_view};
    ghost use Rattle.dwarf_source_frames.specs.Frames.{FrameRecord};
    ghost use Rattle.dwarf_source_frames.specs.FrameViews.{frame_view};
    ghost use Rattle.table_source_frames_build.specs.Kept.{IsFile, IsLocation, IsName, KeepsNumbers};

    /// A store without addresses.
    pub fn new(heap: Heap) -> LineStore<'a>
        ensures { result ≡ record {
          taken = [];
          kept = record { texts = []; files = []; scopes = []; locations = [] };
        } }
    {
        LineStore {
            kept: Kept::new(heap.share()),
            steps: Vec::new(heap),
        }
    }

    /// The number of a name; 0 for no name. The time is that of a search, and a new name needs memory.
    pub fn name(&mut self, name: Option<&'a [u8]>) -> Result<u32, NoMemory>
        ensures is { IfOk result (λ number. IsName self.new.kept number (option_map (λ n. n.now) name.entry)) }
        ensures tells { KeepsNumbers self.old.kept self.new.kept }
        ensures taken { self.new.taken ≡ self.old.taken }
    {
        self.kept.name(name)
    }

    /// The number of a path; 0 for no path. The time is that of four searches, and new texts and files need memory.
    pub fn path(&mut self, path: Option<PathParts<'a>>) -> Result<u32, NoMemory>
        ensures is { IfOk result (λ number. IsFile self.new.kept number (option_map path_view path.entry)) }
        ensures tells { KeepsNumbers self.old.kept self.new.kept }
        ensures taken { self.new.taken ≡ self.old.taken }
    {
        self.kept.file(path)
    }

    /// The number of the empty list of frames.
    pub fn no_frames(&self) -> u32
        ensures { IsLocation self.now.kept result [] }
    {
        0
    }

    /// The number of a frame and of those that it is inlined into. The time is that of two searches, and a new scope or
    /// location needs memory.
    pub fn frames(
        &mut self,
        name: u32,
        path: u32,
        line: u32,
        column: u32,
        callers: u32,
    ) -> Result<u32, NoMemory>
        requires name { (n : Option (List ℕ)) × IsName self.old.kept name n }
        requires path { (p : Option PathRecord) × IsFile self.old.kept path p }
        requires callers { (outer : List FrameRecord) × IsLocation self.old.kept callers outer }
        ensures is { IfOk result (λ number.
            (n : Option (List ℕ)) (p : Option PathRecord) (outer : List FrameRecord) → IsName self.old.kept name n
            → IsFile self.old.kept path p → IsLocation self.old.kept callers outer
            → IsLocation self.new.kept number (record { name = n; path = p; line = line; column = column } ∷ outer)) }
        ensures tells { KeepsNumbers self.old.kept self.new.kept }
        ensures taken { self.new.taken ≡ self.old.taken }
    {
        let scope = ScopeKey {
            caller: callers,
            name,
            file: path,
        };
        self.kept.location_number(scope, line, column)
    }

    /// Adds an address and the number of its frames. Each address is to be added once. It needs 16 bytes of memory.
    pub fn add_frames(&mut self, address: u64, number: u32) -> Result<(), NoMemory>
        requires { (frames : List FrameRecord) × IsLocation self.old.kept number frames }
        ensures added { OnOk result ((frames : List FrameRecord) → IsLocation self.old.kept number frames
            → self.new.taken ≡ self.old.taken ++ record { start = address; frames = frames } ∷ []) }
        ensures kept { self.new.kept ≡ self.old.kept }
        ensures unchanged { OnErr result (self.new ≡ self.old) }
    {
        self.steps.push(Step {
            start: address,
            location: number,
        })?;
        Ok(())
    }
}
