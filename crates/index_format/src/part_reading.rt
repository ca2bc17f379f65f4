//! Reads the entries of an index under several UUIDs.

ghost use Rattle.std.specs.Prelude.{◌≡◌, ◌≢◌, ◌+◌, ◌*◌, ◌≤◌, ◌<◌, ◌^◌, ℕ, List, IfOk, IfSome, length};
ghost use Rattle.std.specs.List.{AllByRecursion, concat};
ghost use Rattle.std.specs.List.Sorted.{IsStrictlySortedBy};
ghost use Rattle.std.specs.Ordering.{nat_cmp};
ghost use Rattle.std.specs.Cmp.Lexicographic.{slice_cmp};
ghost use Rattle.table_checked_pages.specs.Pages.{AreStored, MayBeStored};
ghost use Rattle.table_checked_pages.specs.Reading.{ReadsStored};
ghost use Rattle.table_checked_pages.specs.Views.{claim_view};
ghost use Rattle.index_format.specs.InnerPaged.{HaveTags, IsUnreadPart, MayHold, numbers_of};
ghost use Rattle.index_format.specs.InnerPart.{AreUnder};
ghost use Rattle.index_format.specs.Paged.{only};
ghost use Rattle.index_format.specs.Part.{IsPartFault, IsPartOf};
ghost use Rattle.index_format.specs.Reading.{ReadsText};
ghost use Rattle.index_format.specs.Spread.{AreNumbers};
ghost use Rattle.index_format.specs.Tree.{is_under_one};

use crate::ends::read_ends;
use crate::entry::ENTRY_LEN;
use crate::index_part::IndexPart;
use crate::paged_entries::{are_parted, read_paged};
use crate::paged_entry::PagedEntry;
use crate::part_checking::part_of;
use crate::reading::unread;
use crate::{IndexFault, IndexFaultKind};
use byte_device::Placed;
use heap_memory::Heap;
use table_checked_pages::{CheckFault, Claim, Pages};

/// The entries under these UUIDs, with their numbers, of so many that are stored where the claim says; none if another
/// number of them are retirements.
fn read_claimed<P: Placed>(
    heap: &Heap,
    device: &mut P,
    claim: Claim,
    count: u64,
    retired: u64,
    uuids: &[[u8; 16]],
) -> Result<Option<Vec<PagedEntry, Heap>>, CheckFault>
    requires fits { 122 * count < 2 ^ 64 }
    requires size { claim.size ≡ 122 * count }
    requires within { retired ≤ count }
    requires ascending { IsStrictlySortedBy (slice_cmp nat_cmp) uuids.now }
    ensures numbers { IfOk result (λ read. IfSome read (λ some. AreNumbers count (numbers_of some.items))) }
    ensures read { ReadsStored P.whole P.failures device.old device.new result
        (λ text read. (entries : List (List ℕ)) → MayBeStored text (claim_view claim) (concat entries)
        → length entries ≡ count → AllByRecursion (λ e. length e ≡ 122) entries → HaveTags retired entries
        → AreUnder count uuids.now entries read)
        (λ text. length text < 2 ^ 64 → (all : List ℕ) → AreStored text (claim_view claim) all → ⊥) }
{
    let mut pages = Pages::open(heap.share(), claim)?;
    if !are_parted(device, &mut pages, count, retired)? {
        return Ok(None);
    }
    let read = read_paged(heap.share(), device, &mut pages, count, retired, uuids)?;
    Ok(Some(read))
}

/// The entries under these UUIDs, of so many that are stored where the claim says, and begin at this offset: these
/// pages of them are read and compared with their digests, and each entry is checked.
pub(crate) fn read_part<P: Placed>(
    heap: &Heap,
    device: &mut P,
    claim: Claim,
    count: u64,
    retired: u64,
    first: u64,
    uuids: &[[u8; 16]],
) -> Result<IndexPart, IndexFault>
    requires fits { first + 122 * count < 2 ^ 64 }
    requires size { claim.size ≡ 122 * count }
    requires within { retired ≤ count }
    requires ascending { IsStrictlySortedBy (slice_cmp nat_cmp) uuids.now }
    ensures { ReadsText P.whole P.failures device.old device.new result
        (λ text part. (entries : List (List ℕ)) → MayHold text (claim_view claim) count retired entries
        → part ≡ only (is_under_one uuids.now) entries)
        (λ text fault. IsUnreadPart text (claim_view claim) count retired first fault) }
{
    match read_claimed(heap, device, claim, count, retired, uuids) {
        Ok(Some(read)) => part_of(heap, &read, count, claim.offset, first),
        Ok(None) => Err(IndexFault {
            kind: IndexFaultKind::BadPlace,
            offset: first + ENTRY_LEN as u64 * retired,
        }),
        Err(fault) => Err(unread(fault, claim.offset)),
    }
}

/// Reads the entries of an index under these UUIDs, and how long its archive is: the magic, the end record, and those
/// pages of the stored entries that the search for these passes, with the digests over them. The pages are compared
/// with the root, and the entries are checked; the others are not read.
///
/// # Errors
///
/// The first of these: the magic is another; there is no room for an end record, or none at the end, or no room for its
/// entries, or more of them are retirements; a page that is read is not that of the root; for an entry that is read, in
/// this order, the tag, the kind or the length is not possible, it is not above the one that was read before it, or its
/// claim is not possible. If the device fails or memory runs out, the offset is that of the part that was being read.
pub fn read_index_under<P: Placed>(
    heap: Heap,
    device: &mut P,
    uuids: &[[u8; 16]],
) -> Result<(IndexPart, u64), IndexFault>
    requires { IsStrictlySortedBy (slice_cmp nat_cmp) uuids.now }
    ensures { ReadsText P.whole P.failures device.old device.new result
        (λ text read. IsPartOf uuids.now text read.0 read.1) IsPartFault }
{
    let ends = read_ends(heap.share(), device)?;
    let root = ends.root;
    let claim = Claim {
        offset: ends.start,
        size: ENTRY_LEN as u64 * ends.count,
        root,
    };
    let part = read_part(
        &heap,
        device,
        claim,
        ends.count,
        ends.retired,
        ends.first,
        uuids,
    )?;
    Ok((part, ends.archive_len))
}
