//! The entries with one tag and a prefix, which are adjacent.

ghost use Rattle.std.specs.Prelude.{◌≡◌, ◌+◌, ◌≤◌, ◌∷◌, length, map, take};
ghost use Rattle.std.specs.Ordering.{nat_cmp};
ghost use Rattle.std.specs.Cmp.Lexicographic.{slice_cmp};
ghost use Rattle.index_format.specs.Entry.{entry_bytes, placed_bytes};
ghost use Rattle.index_format.specs.Index.{AreIndexed};
ghost use Rattle.index_format.specs.Runs.{IsRun, is_tagged};

use crate::IndexEntry;
use std::cmp::Ordering;

/// Compares the tag of an entry and the front of its key with a tag and a prefix.
fn compare(entry: &IndexEntry, tag: u8, prefix: &[u8]) -> Ordering
    requires { length prefix.now ≤ 24 }
    ensures { result ≡ slice_cmp nat_cmp (take (length prefix.now + 1) (placed_bytes entry.now)) (tag ∷ prefix.now) }
{
    let bytes = entry.placed_bytes();
    bytes[0]
        .cmp(&tag)
        .then(bytes[1..prefix.len() + 1].cmp(prefix))
}

/// The range of numbers of the entries with a tag and a prefix, at most a key: the retirements with it, tag 1, or the
/// admissions, tag 2. The range is found by binary search.
pub fn run_under(entries: &[IndexEntry], tag: u8, prefix: &[u8]) -> (usize, usize)
    requires indexed { AreIndexed (map placed_bytes entries.now) }
    requires short { length prefix.now ≤ 24 }
    ensures run { IsRun (is_tagged tag prefix.now) (map entry_bytes entries.now) result.0 result.1 }
    ensures placed { IsRun (is_tagged tag prefix.now) (map placed_bytes entries.now) result.0 result.1 }
{
    let start = entries.partition_point(|entry| compare(entry, tag, prefix).is_lt());
    let stop = entries.partition_point(|entry| compare(entry, tag, prefix).is_le());
    (start, stop)
}
