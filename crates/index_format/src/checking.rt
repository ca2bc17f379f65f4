//! The checks of the entries of an index.

ghost use Rattle.std.specs.Prelude.{◌≡◌, ◌≢◌, ◌⊎◌, ◌+◌, ◌*◌, ◌<◌, ◌≤◌, ◌^◌, ℕ, List, IfOk, IfErr, length};
ghost use Rattle.table_checked_pages.specs.Views.{claim_view};
ghost use Rattle.index_format.specs.Entry.{has_kind, has_length, has_tag};
ghost use Rattle.index_format.specs.Entry.{has_claim, stored_size};
ghost use Rattle.index_format.specs.Fault.{FailsAfter};
ghost use Rattle.index_format.specs.InnerReading.{AreChecked};
ghost use Rattle.index_format.specs.Text.{check_entry};
ghost use Rattle.index_format.specs.declared.index_fault.IndexFaultKind.TheVariants.{Device, OutOfMemory};

use crate::entry::{ENTRY_LEN, PLACED_LEN, claim_in};
use crate::{IndexEntry, IndexFault, IndexFaultKind};
use archive_records::{
    ADMISSION, ADMISSION_HEAD_LEN, LARGEST_SLICE, RETIREMENT, RETIREMENT_LEN, number_at,
};
use heap_memory::Heap;
use table_checked_pages::{Claim, digests_len};

/// Whether the tag is possible for an entry.
fn has_tag(bytes: &[u8]) -> bool
    requires { 0 < length bytes.now }
    ensures { result ≡ has_tag bytes.now }
{
    bytes[0] == RETIREMENT || bytes[0] == ADMISSION
}

/// Whether the kind is possible for the entry.
fn has_kind(bytes: &[u8]) -> bool
    requires { 74 ≤ length bytes.now }
    ensures { result ≡ has_kind bytes.now }
{
    bytes[57] == 0 || (bytes[57] == 1 && bytes[0] == ADMISSION)
}

/// Whether the length is possible for the record.
fn has_length(bytes: &[u8]) -> bool
    requires { 74 ≤ length bytes.now }
    ensures { result ≡ has_length bytes.now }
{
    let length = number_at(bytes, 66);
    if bytes[0] == ADMISSION {
        let head = ADMISSION_HEAD_LEN as u64;
        head <= length && length <= head + LARGEST_SLICE
    } else {
        length == RETIREMENT_LEN as u64
    }
}

/// The number of bytes that are stored for a claim.
pub(crate) fn stored_size(claim: &Claim) -> u128
    ensures is { result ≡ stored_size (claim_view claim.now) }
    ensures fits { result < 2 ^ 70 }
{
    let size = claim.size;
    u128::from(digests_len(size)) + u128::from(size)
}

/// Whether the claim is zero, or is in an admission and its table ends before this offset.
#[tactic(auto, unfolding(crate::specs::Entry::zeros))]
fn has_claim(bytes: &[u8], end: u64) -> bool
    requires { length bytes.now ≡ 122 }
    ensures { result ≡ has_claim end bytes.now }
{
    if bytes[0] == ADMISSION {
        let claim = claim_in(bytes);
        u128::from(claim.offset) + stored_size(&claim) <= u128::from(end)
    } else {
        &bytes[PLACED_LEN..] == &[0; 48][..]
    }
}

/// Checks an entry after this last one, if the tables end at this offset.
#[tactic(auto, unfolding(crate::specs::Text::check_entry))]
pub(crate) fn check_entry(last: &[u8], bytes: &[u8], end: u64) -> Result<(), IndexFaultKind>
    requires { length bytes.now ≡ 122 }
    ensures checked { result ≡ check_entry end last.now bytes.now }
    ensures faulty { IfErr result (λ kind. kind ≢ Device) }
{
    if !has_tag(bytes) {
        return Err(IndexFaultKind::BadTag);
    }
    if !has_kind(bytes) {
        return Err(IndexFaultKind::BadKind);
    }
    if !has_length(bytes) {
        return Err(IndexFaultKind::BadLength);
    }
    if !last.cmp(bytes).is_lt() {
        return Err(IndexFaultKind::NotAscending);
    }
    if !has_claim(bytes, end) {
        return Err(IndexFaultKind::BadTable);
    }
    Ok(())
}

/// The entries with these bytes, which begin at the offset `first`, if the tables end at the offset `end`.
pub(crate) fn entries_in(
    heap: Heap,
    bytes: &[u8],
    count: u64,
    end: u64,
    first: u64,
) -> Result<Vec<IndexEntry, Heap>, IndexFault>
    requires whole { length bytes.now ≡ 122 * count }
    requires fits { first + length bytes.now < 2 ^ 64 }
    ensures read { IfOk result (λ entries. AreChecked end bytes.now entries.items) }
    ensures faulty { IfErr result (λ fault. ((fault.kind ≡ OutOfMemory) × (fault.offset ≡ end))
        ⊎ ((before : List (List ℕ)) × FailsAfter end first bytes.now before fault)) }
    ensures device { IfErr result (λ fault. fault.kind ≢ Device) }
{
    let mut entries = Vec::new(heap);
    let mut last: &[u8] = &[];
    'reading: for index in 0..count {
        let at = ENTRY_LEN * index as usize;
        let entry = &bytes[at..at + ENTRY_LEN];
        if let Err(kind) = check_entry(last, entry, end) {
            return Err(IndexFault {
                kind,
                offset: first + at as u64,
            });
        }
        last = entry;
        if let Err(_) = entries.push(IndexEntry::of_bytes(entry)) {
            return Err(IndexFault::out_of_memory(end));
        }
    }
    Ok(entries)
}
