//! The known pages of a level.

ghost use Rattle.std.specs.Prelude.{◌≡◌, ◌<◌, ℕ, List, [], OnOk, length, slice_index_or};
ghost use Rattle.table_checked_pages.specs.Pages.{AreKept, page_of};
ghost use Rattle.table_checked_pages.specs.Views.{level_view};

use heap_memory::{Heap, NoMemory};

/// The pages of a level that were read, by their numbers; a page without bytes was not read.
#[derive(Drop)]
pub struct Level {
    pub(crate) kept: Vec<Vec<u8, Heap>, Heap>,
}

impl Level {
    /// No pages.
    pub(crate) fn new(heap: Heap) -> Level
        ensures { level_view result ≡ [] }
    {
        Level {
            kept: Vec::new(heap),
        }
    }

    /// A page; empty if it was not read.
    pub(crate) fn page(&self, index: u64) -> &[u8]
        ensures { result.now ≡ slice_index_or (level_view self.now) index [] }
    {
        match self.kept.get(index as usize) {
            Some(page) => &page[..],
            None => &[],
        }
    }

    /// Makes room for a page.
    fn make_room(&mut self, heap: &Heap, index: u64) -> Result<(), NoMemory>
        ensures room { OnOk result (index < length self.new.kept.items) }
        ensures keeps { (all : List ℕ) → AreKept (level_view self.old) all → AreKept (level_view self.new) all }
    {
        'room: while self.kept.len() as u64 <= index {
            self.kept.push(Vec::new(heap.share()))?;
        }
        Ok(())
    }

    /// Keeps a page.
    pub(crate) fn keep(
        &mut self,
        heap: &Heap,
        index: u64,
        page: Vec<u8, Heap>,
    ) -> Result<(), NoMemory>
        ensures kept { OnOk result (slice_index_or (level_view self.new) index [] ≡ page.items) }
        ensures keeps { (all : List ℕ) → page.items ≡ page_of all index → AreKept (level_view self.old) all
            → AreKept (level_view self.new) all }
    {
        self.make_room(heap, index)?;
        self.kept[index as usize] = page;
        Ok(())
    }
}
