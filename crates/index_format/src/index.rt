//! The entries of an index that was read.

ghost use Rattle.std.specs.Prelude.{◌≡◌, ◌+◌, All, length, map};
ghost use Rattle.join_core.specs.Listing.{listing};
ghost use Rattle.index_format.specs.Entry.{AreOrderedEntries, HasItsFields, entry_bytes, placed_bytes};
ghost use Rattle.index_format.specs.Index.{AreIndexEntries, AreIndexed, lengths_of};
ghost use Rattle.index_format.specs.Text.{placed_of};

use crate::IndexEntry;
use crate::numbers::archive_len;
use heap_memory::Heap;
use std::marker::Model;

/// The entries of an index, in ascending byte order. A contract sees it as the list of their bytes.
#[derive(Drop)]
pub struct Index {
    entries: Vec<IndexEntry, Heap>,
}

impl Model for Index {
    ghost use Rattle.std.specs.Prelude.{ℕ, List, map};
    ghost use Rattle.index_format.specs.Entry.{AreOrderedEntries, entry_bytes};

    ghost Value = { List (List ℕ) };

    ghost view = { λ index. map entry_bytes index.entries.items };

    ghost invariant = { λ index. AreOrderedEntries index.entries.items };
}

impl Index {
    /// The index with these entries.
    pub(crate) fn of_entries(entries: Vec<IndexEntry, Heap>) -> Index
        requires { AreOrderedEntries entries.items }
        ensures { result ≡ map entry_bytes entries.items }
    {
        Index { entries }
    }

    /// The number of entries.
    pub fn len(&self) -> u64
        ensures len { result ≡ length self.now }
        ensures entries { AreIndexEntries (placed_of self.now) }
    {
        self.entries.len() as u64
    }

    /// The entries in their order.
    pub fn entries(&self) -> &[IndexEntry]
        ensures bytes { map entry_bytes result.now ≡ self.now }
        ensures fields { All HasItsFields result.now }
        ensures placed { map placed_bytes result.now ≡ listing (placed_of self.now) }
        ensures indexed { AreIndexed (map placed_bytes result.now) }
    {
        &self.entries
    }

    /// The size in bytes of an archive with the records in the entries: the magic, the records and the end record.
    pub fn archive_size(&self) -> u128
        ensures { result ≡ 17 + lengths_of (placed_of self.now) }
    {
        archive_len(&self.entries)
    }
}
