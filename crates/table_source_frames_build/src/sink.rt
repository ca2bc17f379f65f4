//! A line store as a sink of turns.

use crate::store::LineStore;
use dwarf_frame_changes::FrameSink;
use dwarf_lines::PathParts;
use heap_memory::NoMemory;

/// A store that accepts turns.
#[derive(Drop)]
pub(crate) struct StoreSink<'a> {
    pub store: LineStore<'a>,
}

impl<'a> FrameSink<'a> for StoreSink<'a> {
    ghost use Rattle.std.specs.Prelude.{◌≡◌};
    ghost use Rattle.table_source_frames_build.specs.TurnSteps.{steps_of_turns};
    ghost use Rattle.table_source_frames_build.specs.Kept.{IsFile, IsLocation, IsName};

    // The store numbers names, paths and frames.
    ghost numbers_name = { λ sink number name. IsName sink.store.kept number name };

    ghost numbers_path = { λ sink number path. IsFile sink.store.kept number path };

    ghost numbers_frames = { λ sink number frames. IsLocation sink.store.kept number frames };

    // The store has accepted the frames of each of the turns.
    ghost has_received = { λ sink turns. sink.store.taken ≡ steps_of_turns turns };

    fn name(&mut self, name: Option<&'a [u8]>) -> Result<u32, NoMemory> {
        self.store.name(name)
    }

    fn path(&mut self, path: Option<PathParts<'a>>) -> Result<u32, NoMemory> {
        self.store.path(path)
    }

    fn no_frames(&self) -> u32 {
        self.store.no_frames()
    }

    fn frames(
        &mut self,
        name: u32,
        path: u32,
        line: u32,
        column: u32,
        callers: u32,
    ) -> Result<u32, NoMemory> {
        self.store.frames(name, path, line, column, callers)
    }

    fn push(&mut self, address: u64, number: u32) -> Result<(), NoMemory> {
        self.store.add_frames(address, number)?;
        Ok(())
    }
}
