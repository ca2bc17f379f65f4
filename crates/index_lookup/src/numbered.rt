//! An entry of one of several indexes, and its fields.

ghost use Rattle.std.specs.Prelude.{◌≡◌};
ghost use Rattle.index_format.specs.Entry.{HasItsFields, entry_bytes};
ghost use Rattle.index_lookup.specs.Among.{subject_of};
ghost use Rattle.index_lookup.specs.Told.{is_companion};

use archive_records::ENTRY_LEN;
use index_format::IndexEntry;

/// The length of the tag, the key and the digest of an entry in bytes: its entry of a summary.
pub(crate) const SLICE_LEN: usize = ENTRY_LEN;

/// An entry, the number of its index, and its own number in the index, each from 0.
#[derive(Clone, Copy)]
pub(crate) struct Numbered {
    pub input: u64,
    pub number: u64,
    pub entry: IndexEntry,
    ghost fields: { HasItsFields entry },
}

/// The key and the digest of an entry.
pub(crate) fn subject_of(entry: &IndexEntry) -> [u8; 56]
    ensures { result ≡ subject_of (entry_bytes entry.now) }
{
    let mut subject = [0; 56];
    subject.copy_from_slice(&entry.bytes()[1..SLICE_LEN]);
    subject
}

/// Whether an entry is that of a companion.
pub(crate) fn is_companion(entry: &IndexEntry) -> bool
    ensures { result ≡ is_companion (entry_bytes entry.now) }
{
    entry.bytes()[57] == 1
}
