//! The entries of one tag under a UUID, found by halving in the pages of all entries.

ghost use Rattle.std.specs.Prelude.{◌≡◌, ◌+◌, ◌*◌, ◌∷◌, ◌≤◌, ◌<◌, ◌^◌, ℕ, List, [], IfOk, length, slice_index_or, take};
ghost use Rattle.std.specs.Prelude.{true};
ghost use Rattle.std.specs.List.Sorted.{IsStrictlySortedBy};
ghost use Rattle.std.specs.Ordering.{nat_cmp};
ghost use Rattle.std.specs.Cmp.Lexicographic.{slice_cmp};
ghost use Rattle.table_checked_pages.specs.Halving.{IsEdge};
ghost use Rattle.table_checked_pages.specs.Pages.{AreStored};
ghost use Rattle.table_checked_pages.specs.Reading.{ReadsStored};
ghost use Rattle.table_checked_pages.specs.Views.{ArePagesOf, KeepsPages, claim_view};
ghost use Rattle.index_format.specs.Paged.{FillBytes, IsRunWithin, is_up_to};

use byte_device::Placed;
use std::cmp::Ordering;
use table_checked_pages::{CheckFault, Pages, Sought, partition_point};

/// How many bytes a tag and a UUID have.
const BEGIN_LEN: usize = 17;

/// How an entry of this number begins: its tag and the UUID of its key.
fn begin_at<P: Placed>(
    device: &mut P,
    pages: &mut Pages,
    place: u64,
) -> Result<[u8; 17], CheckFault>
    requires { 122 * place < 2 ^ 64 }
    ensures claim { pages.new.claim ≡ pages.old.claim }
    ensures keeps { KeepsPages P.whole device.old pages.old pages.new }
    ensures read { ReadsStored P.whole P.failures device.old device.new result
        (λ text begin. (all : List ℕ) (entries : List (List ℕ)) (count : ℕ) → ArePagesOf pages.old text all
        → FillBytes entries count all → place < count → begin ≡ take 17 (slice_index_or entries place []))
        (λ text. (all : List ℕ) → AreStored text (claim_view pages.old.claim) all → ArePagesOf pages.old text all
        → 122 * place + 17 ≤ length all → ⊥) }
{
    let mut begin = [0; BEGIN_LEN];
    pages.read(device, 122 * place, &mut begin)?;
    Ok(begin)
}

/// Whether this is below, or below and equal too.
fn is_up_to(with: bool, order: Ordering) -> bool
    ensures { result ≡ is_up_to with order }
{
    if with { order.is_le() } else { order.is_lt() }
}

/// The entries that begin below a tag and a UUID, and those that begin with them too.
#[derive(Drop)]
struct BeginsUpTo {
    count: u64,
    begin: [u8; 17],
    with: bool,
    ghost fits: { 122 * count < 2 ^ 64 },
}

impl Sought for BeginsUpTo {
    ghost use Rattle.std.specs.Prelude.{slice_index_or, take};
    ghost use Rattle.std.specs.Ordering.{nat_cmp};
    ghost use Rattle.std.specs.Cmp.Lexicographic.{slice_cmp};
    ghost use Rattle.index_format.specs.Paged.{FillBytes, is_up_to};

    ghost Rows = { List (List ℕ) };

    ghost stand = { λ s entries all. FillBytes entries s.count all };

    ghost is_held = { λ s all. 122 * s.count ≤ length all };

    ghost is_below = { λ s entries place.
        is_up_to s.with (slice_cmp nat_cmp (take 17 (slice_index_or entries place [])) s.begin) ≡ true };

    ghost count = { λ s. s.count };

    fn is_below<P: Placed>(
        &self,
        device: &mut P,
        pages: &mut Pages,
        place: u64,
    ) -> Result<bool, CheckFault> {
        let begin = begin_at(device, pages, place)?;
        Ok(is_up_to(self.with, begin[..].cmp(&self.begin[..])))
    }
}

/// How the entries of a tag under a UUID begin.
fn beginning(tag: u8, uuid: &[u8; 16]) -> [u8; 17]
    ensures { result ≡ tag ∷ uuid.now }
{
    let mut begin = [tag; BEGIN_LEN];
    begin[1..].copy_from_slice(uuid);
    begin
}

/// The end of the entries that begin so, from one number on. It is mostly near: so it is sought there first, in pages
/// that were read.
fn stop_from<P: Placed>(
    device: &mut P,
    pages: &mut Pages,
    upto: &BeginsUpTo,
    start: u64,
    to: u64,
) -> Result<u64, CheckFault>
    requires ordered { start ≤ to }
    requires within { to ≤ upto.now.count }
    ensures claim { pages.new.claim ≡ pages.old.claim }
    ensures keeps { KeepsPages P.whole device.old pages.old pages.new }
    ensures within { IfOk result (λ stop. (start ≤ stop) × (stop ≤ to)) }
    ensures read { ReadsStored P.whole P.failures device.old device.new result
        (λ text stop. (all : List ℕ) (entries : List (List ℕ)) → ArePagesOf pages.old text all
        → FillBytes entries upto.now.count all
        → IsEdge (λ k. is_up_to upto.now.with (slice_cmp nat_cmp (take 17 (slice_index_or entries k [])) upto.now.begin)
        ≡ true) start to stop)
        (λ text. (all : List ℕ) → AreStored text (claim_view pages.old.claim) all → ArePagesOf pages.old text all
        → 122 * upto.now.count ≤ length all → ⊥) }
{
    let near = start + (to - start).min(33);
    let stop = partition_point(device, pages, upto, start, near)?;
    if stop < near {
        return Ok(stop);
    }
    let last = partition_point(device, pages, upto, near, to)?;
    Ok(last)
}

/// From which number on, and up to which, the entries of a tag under a UUID stand, of those from one number up to
/// another, among so many whose bytes are stored in these pages. They are found by halving: the pages on the way are
/// read, and the digests over them.
pub(crate) fn run_in_pages<P: Placed>(
    device: &mut P,
    pages: &mut Pages,
    count: u64,
    from: u64,
    to: u64,
    tag: u8,
    uuid: &[u8; 16],
) -> Result<(u64, u64), CheckFault>
    requires fits { 122 * count < 2 ^ 64 }
    requires ordered { from ≤ to }
    requires within { to ≤ count }
    ensures claim { pages.new.claim ≡ pages.old.claim }
    ensures keeps { KeepsPages P.whole device.old pages.old pages.new }
    ensures within { IfOk result (λ run. (from ≤ run.0) × (run.0 ≤ run.1) × (run.1 ≤ to)) }
    ensures read { ReadsStored P.whole P.failures device.old device.new result
        (λ text run. (all : List ℕ) (entries : List (List ℕ)) → ArePagesOf pages.old text all
        → FillBytes entries count all → IsStrictlySortedBy (slice_cmp nat_cmp) entries
        → IsRunWithin tag uuid.now entries from to run.0 run.1)
        (λ text. (all : List ℕ) → AreStored text (claim_view pages.old.claim) all → ArePagesOf pages.old text all
        → 122 * count ≤ length all → ⊥) }
{
    let begin = beginning(tag, uuid);
    let below = BeginsUpTo {
        count,
        begin,
        with: false,
    };
    let start = partition_point(device, pages, &below, from, to)?;
    let upto = BeginsUpTo {
        count,
        begin,
        with: true,
    };
    let stop = stop_from(device, pages, &upto, start, to)?;
    Ok((start, stop))
}
