//! The entry of one operation in a summary.

ghost use Rattle.std.specs.Prelude.{◌≡◌};
ghost use Rattle.std.specs.Ordering.{nat_cmp};
ghost use Rattle.std.specs.Cmp.Lexicographic.{slice_cmp};
ghost use Rattle.archive_core.specs.Record.{borrowed_bytes};
ghost use Rattle.archive_core.specs.Summary.{entry};
ghost use Rattle.archive_records.specs.Entry.{entry_bytes, IsEntry};

use crate::head::{ADMISSION, ENTRY_LEN, digest_in, key_in};
use archive_core::{Digest, RETIREMENT, Record, SliceKey, tagged_bytes};
use std::cmp::Ordering;

/// An operation without the bytes of its slice.
#[derive(Clone, Copy, Debug, PartialEq, Eq)]
pub enum Entry {
    /// A retirement of the slices with that key and that SHA-256.
    Retirement(SliceKey, Digest),
    /// An admission of the slice with that key and that SHA-256.
    Admission(SliceKey, Digest),
}

impl Entry {
    /// The entry of an operation. The slice of an admission is hashed.
    pub fn of(item: &Record<'_>) -> Entry
        ensures { entry_bytes result ≡ entry (borrowed_bytes item.now) }
    {
        match item {
            Record::Admit(slice) => Entry::Admission(slice.key(), slice.digest()),
            Record::Retire(key, digest) => Entry::Retirement(*key, *digest),
        }
    }

    /// The bytes of the entry in a summary's text: a tag, the key, and the digest.
    pub fn bytes(&self) -> [u8; ENTRY_LEN]
        ensures { result ≡ entry_bytes self.now }
    {
        match self {
            Entry::Retirement(key, digest) => tagged_bytes(RETIREMENT, key, digest),
            Entry::Admission(key, digest) => tagged_bytes(ADMISSION, key, digest),
        }
    }

    /// Compares two entries by their bytes in a summary's text.
    pub fn compare(&self, other: &Entry) -> Ordering
        ensures { result ≡ slice_cmp nat_cmp (entry_bytes self.now) (entry_bytes other.now) }
    {
        self.bytes().cmp(&other.bytes())
    }
}

/// The entry with these bytes.
pub(crate) fn entry_in(bytes: &[u8]) -> Entry
    requires { IsEntry bytes.now }
    ensures { entry_bytes result ≡ bytes.now }
{
    let key = key_in(bytes);
    let digest = digest_in(bytes);
    if bytes[0] == RETIREMENT {
        Entry::Retirement(key, digest)
    } else {
        Entry::Admission(key, digest)
    }
}
