//! Some of the entries of an index, with their numbers.

ghost use Rattle.std.specs.Prelude.{◌≡◌, ◌≤◌, ◌<◌, ℕ, List, All, length, map};
ghost use Rattle.index_format.specs.Entry.{HasItsFields, entry_bytes};
ghost use Rattle.index_format.specs.Runs.{is_tagged};
ghost use Rattle.index_format.specs.Spread.{AreNumbered, ArePart, HasTagIfRead, spread};

use crate::IndexEntry;
use crate::runs::run_under;
use heap_memory::Heap;
use std::marker::Model;

/// Some of the entries of an index, in ascending byte order, with their numbers among all. A contract sees it as the
/// list of all entries, in which one that was not read has no bytes.
#[derive(Drop)]
pub struct IndexPart {
    count: u64,
    numbers: Vec<u64, Heap>,
    entries: Vec<IndexEntry, Heap>,
}

impl Model for IndexPart {
    ghost use Rattle.std.specs.Prelude.{ℕ, List, map};
    ghost use Rattle.index_format.specs.Entry.{entry_bytes};
    ghost use Rattle.index_format.specs.Spread.{ArePart, spread};

    ghost Value = { List (List ℕ) };

    ghost view = { λ part. spread part.count part.numbers.items (map entry_bytes part.entries.items) };

    ghost invariant = { λ part. ArePart part.count part.numbers.items part.entries.items };
}

impl IndexPart {
    /// So many entries, of which these were read, with these numbers.
    pub(crate) fn of_entries(
        count: u64,
        numbers: Vec<u64, Heap>,
        entries: Vec<IndexEntry, Heap>,
    ) -> IndexPart
        requires { ArePart count numbers.items entries.items }
        ensures { result ≡ spread count numbers.items (map entry_bytes entries.items) }
    {
        IndexPart {
            count,
            numbers,
            entries,
        }
    }

    /// The numbers of the entries that were read, and these.
    pub(crate) fn parts(&self) -> (&[u64], &[IndexEntry])
        ensures { (count : ℕ) × ArePart count result.0.now result.1.now
            × (self.now ≡ spread count result.0.now (map entry_bytes result.1.now)) }
    {
        (&self.numbers, &self.entries)
    }

    /// The number of all entries, those that were not read among them.
    pub fn len(&self) -> u64
        ensures len { result ≡ length self.now }
        ensures tags { All HasTagIfRead self.now }
    {
        self.count
    }

    /// The entries with a tag and a prefix, at most a key, in their order, after their numbers: the retirements with
    /// it, tag 1, or the admissions, tag 2. They are found by binary search.
    pub fn run_under(&self, tag: u8, prefix: &[u8]) -> (&[u64], &[IndexEntry])
        requires tag { 0 < tag }
        requires short { length prefix.now ≤ 24 }
        ensures run { AreNumbered (is_tagged tag prefix.now) self.now result.0.now (map entry_bytes result.1.now) }
        ensures fields { All HasItsFields result.1.now }
    {
        let (start, stop) = run_under(&self.entries, tag, prefix);
        (&self.numbers[start..stop], &self.entries[start..stop])
    }
}
