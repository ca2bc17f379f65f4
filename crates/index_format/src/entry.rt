//! The kind of a record, its offset, and the offset of its table.

ghost use Rattle.std.specs.Prelude.{◌≡◌, ◌+◌, ◌≤◌, ◌∷◌, ◌++◌, true, length, slice_index, drop};
ghost use Rattle.std.specs.Int.{w64, to_be_bytes};
ghost use Rattle.std.specs.Ordering.{nat_cmp};
ghost use Rattle.std.specs.Cmp.Lexicographic.{slice_cmp};
ghost use Rattle.table_checked_pages.specs.Views.{claim_view};
ghost use Rattle.archive_core.specs.Key.{key_bytes};
ghost use Rattle.archive_core.specs.Record.{borrowed_bytes};
ghost use Rattle.index_format.specs.Entry.{HasItsFields, IsRowOf, claim_bytes, claim_in, dsym_byte, entry_bytes};
ghost use Rattle.index_format.specs.Entry.{has_kind, has_length, has_tag, length_in, no_claim, offset_in};
ghost use Rattle.index_format.specs.Entry.{placed_bytes, placed_entry, tag_byte};

use archive_core::{FindRow, FindState, Record};
use archive_records::{ENTRY_LEN as SUMMARY_LEN, Entry, RETIREMENT, digest_in, key_in, number_at};
use std::cmp::Ordering;
use table_checked_pages::Claim;

/// The length of an entry in bytes.
pub(crate) const ENTRY_LEN: usize = 122;

/// The length of its first part in bytes: the entry of a summary, the kind, and the record's offset and length.
pub(crate) const PLACED_LEN: usize = 74;

/// An entry of an index.
#[derive(Clone, Copy)]
pub struct IndexEntry {
    /// The key, the digest, and the state: the row for the record in a list of the archive.
    pub row: FindRow,
    /// The number of bytes before the record in the archive's text.
    pub offset: u64,
    /// The length of the record in bytes.
    pub length: u64,
    /// The claim of the slice's table in the index. It is zero for a retirement.
    pub claim: Claim,
}

/// The claim of a retirement: all zeros.
#[tactic(auto, unfolding(crate::specs::Entry::zeros))]
pub fn no_claim() -> Claim
    ensures { claim_view result ≡ no_claim }
{
    Claim {
        offset: 0,
        size: 0,
        root: [0; 32],
    }
}

// The entry of a summary for a row.
fn entry_of(row: &FindRow) -> [u8; SUMMARY_LEN]
    ensures { result ≡ tag_byte row.now.state ∷ (key_bytes row.now.key ++ row.now.digest.0) }
{
    match row.state {
        FindState::Retired => Entry::Retirement(row.key, row.digest).bytes(),
        FindState::Image | FindState::Dsym => Entry::Admission(row.key, row.digest).bytes(),
    }
}

// The kind of a row.
fn kind_of(state: FindState) -> u8
    ensures { result ≡ dsym_byte state }
{
    match state {
        FindState::Retired | FindState::Image => 0,
        FindState::Dsym => 1,
    }
}

// Writes the kind, the record's offset and its length into 17 bytes, after the entry of its row.
fn lay_place(part: &mut [u8], entry: &IndexEntry)
    requires { length part.old ≡ 17 }
    ensures { part.new ≡ dsym_byte entry.now.row.state
        ∷ (to_be_bytes w64 entry.now.offset ++ to_be_bytes w64 entry.now.length) }
{
    part[0] = kind_of(entry.row.state);
    part[1..9].copy_from_slice(&entry.offset.to_be_bytes());
    part[9..].copy_from_slice(&entry.length.to_be_bytes());
}

/// The state by the tag and the kind of an entry.
fn state_in(bytes: &[u8]) -> FindState
    requires long { 58 ≤ length bytes.now }
    requires tag { has_tag bytes.now ≡ true }
    requires kind { has_kind bytes.now ≡ true }
    ensures tag { tag_byte result ≡ slice_index bytes.now 0 }
    ensures kind { dsym_byte result ≡ slice_index bytes.now 57 }
{
    if bytes[0] == RETIREMENT {
        FindState::Retired
    } else if bytes[57] == 0 {
        FindState::Image
    } else {
        FindState::Dsym
    }
}

/// The entry with these first 74 bytes and this claim.
fn placed_in(bytes: &[u8], claim: Claim) -> IndexEntry
    requires long { length bytes.now ≡ 74 }
    requires tag { has_tag bytes.now ≡ true }
    requires kind { has_kind bytes.now ≡ true }
    ensures bytes { placed_bytes result ≡ bytes.now }
    ensures offset_is { offset_in bytes.now ≡ result.offset }
    ensures length_is { length_in bytes.now ≡ result.length }
    ensures claim_is { result.claim ≡ claim }
{
    IndexEntry {
        row: FindRow {
            key: key_in(bytes),
            digest: digest_in(bytes),
            state: state_in(bytes),
        },
        offset: number_at(bytes, 58),
        length: number_at(bytes, 66),
        claim,
    }
}

/// The claim in an entry.
pub(crate) fn claim_in(bytes: &[u8]) -> Claim
    requires { length bytes.now ≡ 122 }
    ensures is { claim_view result ≡ claim_in bytes.now }
    ensures bytes { claim_bytes (claim_view result) ≡ drop 74 bytes.now }
{
    let mut root = [0; 32];
    root.copy_from_slice(&bytes[90..]);
    Claim {
        offset: number_at(bytes, PLACED_LEN),
        size: number_at(bytes, 82),
        root,
    }
}

/// Writes the size and the root of a claim into 40 bytes.
fn lay_size_and_root(part: &mut [u8], claim: &Claim)
    requires { length part.old ≡ 40 }
    ensures { part.new ≡ to_be_bytes w64 claim.now.size ++ claim.now.root }
{
    part[..8].copy_from_slice(&claim.size.to_be_bytes());
    part[8..].copy_from_slice(&claim.root);
}

/// Writes a claim into 48 bytes.
fn lay_claim(part: &mut [u8], claim: &Claim)
    requires { length part.old ≡ 48 }
    ensures { part.new ≡ claim_bytes (claim_view claim.now) }
{
    part[..8].copy_from_slice(&claim.offset.to_be_bytes());
    lay_size_and_root(&mut part[8..], claim);
}

impl IndexEntry {
    /// The entry of a record with this offset, length and claim. Its slice is hashed if its digest is not kept.
    pub fn of_record(record: &Record<'_>, offset: u64, size: u64, claim: Claim) -> IndexEntry
        requires { size ≡ length (borrowed_bytes record.now) }
        ensures bytes { placed_bytes result ≡ placed_entry offset (borrowed_bytes record.now) }
        ensures row { IsRowOf (borrowed_bytes record.now) result.row }
        ensures claim { result.claim ≡ claim }
    {
        IndexEntry {
            row: FindRow::of(record),
            offset,
            length: size,
            claim,
        }
    }

    /// The entry with these bytes.
    pub(crate) fn of_bytes(bytes: &[u8]) -> IndexEntry
        requires long { length bytes.now ≡ 122 }
        requires tag { has_tag bytes.now ≡ true }
        requires kind { has_kind bytes.now ≡ true }
        requires length_is { has_length bytes.now ≡ true }
        ensures bytes { entry_bytes result ≡ bytes.now }
        ensures fields { HasItsFields result }
    {
        placed_in(&bytes[..PLACED_LEN], claim_in(bytes))
    }

    /// The bytes of the entry in an index, before its claim.
    pub fn placed_bytes(&self) -> [u8; 74]
        ensures { result ≡ placed_bytes self.now }
    {
        let mut bytes = [0; PLACED_LEN];
        bytes[..SUMMARY_LEN].copy_from_slice(&entry_of(&self.row));
        lay_place(&mut bytes[SUMMARY_LEN..], self);
        bytes
    }

    /// The bytes of the entry in an index.
    pub fn bytes(&self) -> [u8; 122]
        ensures { result ≡ entry_bytes self.now }
    {
        let mut bytes = [0; ENTRY_LEN];
        bytes[..PLACED_LEN].copy_from_slice(&self.placed_bytes());
        lay_claim(&mut bytes[PLACED_LEN..], &self.claim);
        bytes
    }

    /// Compares two entries by their bytes in an index.
    pub fn compare(&self, other: &IndexEntry) -> Ordering
        ensures { result ≡ slice_cmp nat_cmp (entry_bytes self.now) (entry_bytes other.now) }
    {
        self.bytes().cmp(&other.bytes())
    }
}
