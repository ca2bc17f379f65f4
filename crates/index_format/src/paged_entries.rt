//! The entries under several UUIDs, read from the pages of all entries.

ghost use Rattle.std.specs.Prelude.{◌≡◌, ◌+◌, ◌-◌, ◌*◌, ◌∷◌, ◌++◌, ◌||◌, ◌≤◌, ◌<◌, ◌^◌, ℕ, Bool, List, [], IfOk};
ghost use Rattle.std.specs.Prelude.{OnOk, ◌==◌, length, slice_index_or, take, drop, true};
ghost use Rattle.std.specs.List.{range_with_len};
ghost use Rattle.std.specs.List.Sorted.{IsStrictlySortedBy};
ghost use Rattle.std.specs.Ordering.{nat_cmp};
ghost use Rattle.std.specs.Cmp.Lexicographic.{slice_cmp};
ghost use Rattle.table_checked_pages.specs.Pages.{AreStored};
ghost use Rattle.table_checked_pages.specs.Reading.{ReadsStored};
ghost use Rattle.table_checked_pages.specs.Views.{ArePagesOf, KeepsPages, claim_view};
ghost use Rattle.index_format.specs.InnerPaged.{AreRead, AreSought, HaveTags, bytes_of, is_tagged_one, numbers_of};
ghost use Rattle.index_format.specs.Paged.{FillBytes, IsRunWithin, only};
ghost use Rattle.index_format.specs.Runs.{is_tagged};
ghost use Rattle.index_format.specs.Spread.{AreNumbers, spread};
ghost use Rattle.index_format.specs.Tree.{is_under_one};

use crate::entry::ENTRY_LEN;
use crate::paged_entry::PagedEntry;
use crate::paged_runs::run_in_pages;
use archive_records::{ADMISSION, RETIREMENT};
use byte_device::Placed;
use heap_memory::Heap;
use table_checked_pages::{CheckFault, Pages};

/// The entry with this number, of those whose bytes are stored in these pages.
fn entry_at<P: Placed>(
    device: &mut P,
    pages: &mut Pages,
    number: u64,
) -> Result<PagedEntry, CheckFault>
    requires { 122 * number < 2 ^ 64 }
    ensures claim { pages.new.claim ≡ pages.old.claim }
    ensures keeps { KeepsPages P.whole device.old pages.old pages.new }
    ensures number { IfOk result (λ entry. entry.number ≡ number) }
    ensures read { ReadsStored P.whole P.failures device.old device.new result
        (λ text entry. (all : List ℕ) (entries : List (List ℕ)) (count : ℕ) → ArePagesOf pages.old text all
        → FillBytes entries count all → number < count → entry.bytes ≡ slice_index_or entries number [])
        (λ text. (all : List ℕ) → AreStored text (claim_view pages.old.claim) all → ArePagesOf pages.old text all
        → 122 * number + 122 ≤ length all → ⊥) }
{
    let mut bytes = [0; ENTRY_LEN];
    pages.read(device, 122 * number, &mut bytes)?;
    Ok(PagedEntry { number, bytes })
}

/// Whether the entry with this number has this tag.
fn has_tag_at<P: Placed>(
    device: &mut P,
    pages: &mut Pages,
    number: u64,
    tag: u8,
) -> Result<bool, CheckFault>
    requires { 122 * number < 2 ^ 64 }
    ensures claim { pages.new.claim ≡ pages.old.claim }
    ensures keeps { KeepsPages P.whole device.old pages.old pages.new }
    ensures read { ReadsStored P.whole P.failures device.old device.new result
        (λ text has. (all : List ℕ) (entries : List (List ℕ)) (count : ℕ) → ArePagesOf pages.old text all
        → FillBytes entries count all → number < count
        → has ≡ (slice_index_or (slice_index_or entries number []) 0 0 == tag))
        (λ text. (all : List ℕ) → AreStored text (claim_view pages.old.claim) all → ArePagesOf pages.old text all
        → 122 * number + 122 ≤ length all → ⊥) }
{
    let entry = entry_at(device, pages, number)?;
    Ok(entry.bytes[0] == tag)
}

/// Whether the last of so many entries is a retirement, if there is one.
fn ends_retirements<P: Placed>(
    device: &mut P,
    pages: &mut Pages,
    count: u64,
    retired: u64,
) -> Result<bool, CheckFault>
    requires fits { 122 * count < 2 ^ 64 }
    requires within { retired ≤ count }
    ensures claim { pages.new.claim ≡ pages.old.claim }
    ensures keeps { KeepsPages P.whole device.old pages.old pages.new }
    ensures read { ReadsStored P.whole P.failures device.old device.new result
        (λ text fits. (all : List ℕ) (entries : List (List ℕ)) → ArePagesOf pages.old text all
        → FillBytes entries count all → HaveTags retired entries → fits ≡ true)
        (λ text. (all : List ℕ) → AreStored text (claim_view pages.old.claim) all → ArePagesOf pages.old text all
        → 122 * count ≤ length all → ⊥) }
{
    if retired == 0 {
        return Ok(true);
    }
    has_tag_at(device, pages, retired - 1, RETIREMENT)
}

/// Whether the entry after so many is an admission, if there is one.
fn begins_admissions<P: Placed>(
    device: &mut P,
    pages: &mut Pages,
    count: u64,
    retired: u64,
) -> Result<bool, CheckFault>
    requires fits { 122 * count < 2 ^ 64 }
    requires within { retired ≤ count }
    ensures claim { pages.new.claim ≡ pages.old.claim }
    ensures keeps { KeepsPages P.whole device.old pages.old pages.new }
    ensures read { ReadsStored P.whole P.failures device.old device.new result
        (λ text fits. (all : List ℕ) (entries : List (List ℕ)) → ArePagesOf pages.old text all
        → FillBytes entries count all → HaveTags retired entries → fits ≡ true)
        (λ text. (all : List ℕ) → AreStored text (claim_view pages.old.claim) all → ArePagesOf pages.old text all
        → 122 * count ≤ length all → ⊥) }
{
    if retired == count {
        return Ok(true);
    }
    has_tag_at(device, pages, retired, ADMISSION)
}

/// Whether so many of the entries may be retirements: the last of these is one, and the entry after them is none.
pub(crate) fn are_parted<P: Placed>(
    device: &mut P,
    pages: &mut Pages,
    count: u64,
    retired: u64,
) -> Result<bool, CheckFault>
    requires fits { 122 * count < 2 ^ 64 }
    requires within { retired ≤ count }
    ensures claim { pages.new.claim ≡ pages.old.claim }
    ensures keeps { KeepsPages P.whole device.old pages.old pages.new }
    ensures read { ReadsStored P.whole P.failures device.old device.new result
        (λ text fits. (all : List ℕ) (entries : List (List ℕ)) → ArePagesOf pages.old text all
        → FillBytes entries count all → HaveTags retired entries → fits ≡ true)
        (λ text. (all : List ℕ) → AreStored text (claim_view pages.old.claim) all → ArePagesOf pages.old text all
        → 122 * count ≤ length all → ⊥) }
{
    let ends = ends_retirements(device, pages, count, retired)?;
    let begins = begins_admissions(device, pages, count, retired)?;
    Ok(ends && begins)
}

/// Appends the entries from one number up to another.
fn read_run<P: Placed>(
    device: &mut P,
    pages: &mut Pages,
    read: &mut Vec<PagedEntry, Heap>,
    start: u64,
    stop: u64,
) -> Result<(), CheckFault>
    requires { 122 * stop < 2 ^ 64 }
    ensures claim { pages.new.claim ≡ pages.old.claim }
    ensures keeps { KeepsPages P.whole device.old pages.old pages.new }
    ensures numbers { OnOk result (numbers_of read.new.items
        ≡ numbers_of read.old.items ++ range_with_len start (stop - start)) }
    ensures read { ReadsStored P.whole P.failures device.old device.new result
        (λ text _. (all : List ℕ) (entries : List (List ℕ)) (count : ℕ) → ArePagesOf pages.old text all
        → FillBytes entries count all → stop ≤ count
        → bytes_of read.new.items ≡ bytes_of read.old.items ++ take (stop - start) (drop start entries))
        (λ text. (all : List ℕ) → AreStored text (claim_view pages.old.claim) all → ArePagesOf pages.old text all
        → 122 * stop ≤ length all → ⊥) }
{
    'run: for number in start..stop {
        let entry = entry_at(device, pages, number)?;
        let Ok(()) = read.push(entry) else {
            return Err(CheckFault::OutOfMemory);
        };
    }
    Ok(())
}

/// Appends the entries with a tag and a UUID, of those from one number up to another, and returns the number after
/// them.
fn read_under<P: Placed>(
    device: &mut P,
    pages: &mut Pages,
    read: &mut Vec<PagedEntry, Heap>,
    count: u64,
    from: u64,
    to: u64,
    tag: u8,
    uuid: &[u8; 16],
) -> Result<u64, CheckFault>
    requires fits { 122 * count < 2 ^ 64 }
    requires ordered { from ≤ to }
    requires within { to ≤ count }
    requires numbers { AreNumbers from (numbers_of read.old.items) }
    ensures claim { pages.new.claim ≡ pages.old.claim }
    ensures keeps { KeepsPages P.whole device.old pages.old pages.new }
    ensures within { IfOk result (λ next. (from ≤ next) × (next ≤ to)) }
    ensures numbers { IfOk result (λ next. AreNumbers next (numbers_of read.new.items)) }
    ensures read { ReadsStored P.whole P.failures device.old device.new result
        (λ text next. (all : List ℕ) (entries : List (List ℕ)) (passes : List ℕ → Bool) → ArePagesOf pages.old text all
        → FillBytes entries count all → IsStrictlySortedBy (slice_cmp nat_cmp) entries
        → AreSought passes tag (uuid.now ∷ []) entries from to → AreRead passes entries read.old.items
        → ((start : ℕ) × IsRunWithin tag uuid.now entries from to start next)
        × AreRead (λ e. passes e || is_tagged tag uuid.now e) entries read.new.items)
        (λ text. (all : List ℕ) → AreStored text (claim_view pages.old.claim) all → ArePagesOf pages.old text all
        → 122 * count ≤ length all → ⊥) }
{
    let (start, stop) = run_in_pages(device, pages, count, from, to, tag, uuid)?;
    read_run(device, pages, read, start, stop)?;
    Ok(stop)
}

/// Appends the entries with a tag and one of these UUIDs, of those from one number up to another, and returns the
/// number after them.
fn read_tagged<P: Placed>(
    device: &mut P,
    pages: &mut Pages,
    read: &mut Vec<PagedEntry, Heap>,
    count: u64,
    from: u64,
    to: u64,
    tag: u8,
    uuids: &[[u8; 16]],
) -> Result<u64, CheckFault>
    requires fits { 122 * count < 2 ^ 64 }
    requires ordered { from ≤ to }
    requires within { to ≤ count }
    requires ascending { IsStrictlySortedBy (slice_cmp nat_cmp) uuids.now }
    requires numbers { AreNumbers from (numbers_of read.old.items) }
    ensures claim { pages.new.claim ≡ pages.old.claim }
    ensures keeps { KeepsPages P.whole device.old pages.old pages.new }
    ensures within { IfOk result (λ next. (from ≤ next) × (next ≤ to)) }
    ensures numbers { IfOk result (λ next. AreNumbers next (numbers_of read.new.items)) }
    ensures read { ReadsStored P.whole P.failures device.old device.new result
        (λ text _. (all : List ℕ) (entries : List (List ℕ)) (passes : List ℕ → Bool) → ArePagesOf pages.old text all
        → FillBytes entries count all → IsStrictlySortedBy (slice_cmp nat_cmp) entries
        → AreSought passes tag uuids.now entries from to → AreRead passes entries read.old.items
        → AreRead (λ e. passes e || is_tagged_one tag uuids.now e) entries read.new.items)
        (λ text. (all : List ℕ) → AreStored text (claim_view pages.old.claim) all → ArePagesOf pages.old text all
        → 122 * count ≤ length all → ⊥) }
{
    let mut next = from;
    'uuids: for uuid in uuids {
        next = read_under(device, pages, read, count, next, to, tag, uuid)?;
    }
    Ok(next)
}

/// The entries under these UUIDs, with their numbers: the retirements, which are the first entries, so many, and then
/// the admissions.
pub(crate) fn read_paged<P: Placed>(
    heap: Heap,
    device: &mut P,
    pages: &mut Pages,
    count: u64,
    retired: u64,
    uuids: &[[u8; 16]],
) -> Result<Vec<PagedEntry, Heap>, CheckFault>
    requires fits { 122 * count < 2 ^ 64 }
    requires within { retired ≤ count }
    requires ascending { IsStrictlySortedBy (slice_cmp nat_cmp) uuids.now }
    ensures numbers { IfOk result (λ read. AreNumbers count (numbers_of read.items)) }
    ensures read { ReadsStored P.whole P.failures device.old device.new result
        (λ text read. (all : List ℕ) (entries : List (List ℕ)) → ArePagesOf pages.old text all
        → FillBytes entries count all → HaveTags retired entries
        → spread count (numbers_of read.items) (bytes_of read.items) ≡ only (is_under_one uuids.now) entries)
        (λ text. (all : List ℕ) → AreStored text (claim_view pages.old.claim) all → ArePagesOf pages.old text all
        → 122 * count ≤ length all → ⊥) }
{
    let mut read = Vec::new(heap);
    read_tagged(
        device, pages, &mut read, count, 0, retired, RETIREMENT, uuids,
    )?;
    read_tagged(
        device, pages, &mut read, count, retired, count, ADMISSION, uuids,
    )?;
    Ok(read)
}
