//! The groups of rows in stored pages, each of which is read on its own.

ghost use Rattle.std.specs.Prelude.{◌≡◌, ◌≤◌, ◌<◌, ◌+◌, ◌*◌, ℕ, List, IfOk, Some, drop, length, slice_index, take};
ghost use Rattle.table_checked_pages.specs.Groups.{AreGroupsIn, GroupRecord, HoldsGroups, IsBytesOf, bytes_of};
ghost use Rattle.table_checked_pages.specs.Groups.{keys_of, stored_before, stored_group};
ghost use Rattle.table_checked_pages.specs.InnerGroups.{IsGroupRow};
ghost use Rattle.table_checked_pages.specs.GroupViews.{groups_view};
ghost use Rattle.table_checked_pages.specs.Halving.{IsEdge};
ghost use Rattle.table_checked_pages.specs.Pages.{AreStored};
ghost use Rattle.table_checked_pages.specs.Reading.{ReadsStored};
ghost use Rattle.table_checked_pages.specs.Views.{ArePagesOf, KeepsPages, claim_view};

use crate::fault::CheckFault;
use crate::groups::{GROUP_LEN, GROUP_MOST, Groups};
use crate::halving::{Sought, partition_point};
use crate::numbers::u64_be_at;
use crate::pages::Pages;
use byte_device::Placed;

/// The row of a group: the key of its first row, and the number of bytes of the groups before it.
#[derive(Clone, Copy)]
struct GroupRow {
    key: u64,
    before: u64,
}

/// The groups whose keys are not above a key.
#[derive(Drop)]
struct KeysUpTo<'g> {
    groups: &'g Groups,
    key: u64,
}

impl<'g> Sought for KeysUpTo<'g> {
    ghost Rows = { List GroupRecord };

    ghost stand = { λ s groups all. AreGroupsIn all (groups_view s.groups.now) groups };

    ghost is_held = { λ s all. HoldsGroups all (groups_view s.groups.now) };

    ghost is_below = { λ s groups place. slice_index (keys_of groups) place ≤ s.key };

    ghost count = { λ s. s.groups.now.count };

    fn is_below<P: Placed>(
        &self,
        device: &mut P,
        pages: &mut Pages,
        place: u64,
    ) -> Result<bool, CheckFault> {
        let row = self.groups.row(device, pages, place)?;
        Ok(row.key <= self.key)
    }
}

impl Groups {
    /// The offset of the bytes of the first group.
    fn bytes_offset(&self) -> u64
        ensures { result ≡ self.now.offset + 16 * self.now.count }
    {
        self.offset + GROUP_LEN as u64 * self.count
    }

    /// The row of the group at an index.
    fn row<P: Placed>(
        &self,
        device: &mut P,
        pages: &mut Pages,
        index: u64,
    ) -> Result<GroupRow, CheckFault>
        requires { index < self.now.count }
        ensures claim { pages.new.claim ≡ pages.old.claim }
        ensures keeps { KeepsPages P.whole device.old pages.old pages.new }
        ensures read { ReadsStored P.whole P.failures device.old device.new result
            (λ text row. (all : List ℕ) (groups : List GroupRecord) → ArePagesOf pages.old text all
            → AreGroupsIn all (groups_view self.now) groups → IsGroupRow groups index row)
            (λ text. (all : List ℕ) → AreStored text (claim_view pages.old.claim) all → ArePagesOf pages.old text all
            → HoldsGroups all (groups_view self.now) → ⊥) }
        ensures bytes { IfOk result (λ row. (text all : List ℕ) → P.whole device.old ≡ Some text
            → ArePagesOf pages.old text all → row.before ≡ stored_before all (groups_view self.now) index) }
    {
        let mut bytes = [0; GROUP_LEN];
        pages.read(device, self.offset + GROUP_LEN as u64 * index, &mut bytes)?;
        Ok(GroupRow {
            key: u64_be_at(&bytes, 0),
            before: u64_be_at(&bytes, 8),
        })
    }

    /// The number of bytes of the groups before an index.
    fn bytes_before<P: Placed>(
        &self,
        device: &mut P,
        pages: &mut Pages,
        index: u64,
    ) -> Result<u64, CheckFault>
        requires { index ≤ self.now.count }
        ensures claim { pages.new.claim ≡ pages.old.claim }
        ensures keeps { KeepsPages P.whole device.old pages.old pages.new }
        ensures read { ReadsStored P.whole P.failures device.old device.new result
            (λ text before. (all : List ℕ) (groups : List GroupRecord) → ArePagesOf pages.old text all
            → AreGroupsIn all (groups_view self.now) groups → before ≡ length (bytes_of (take index groups)))
            (λ text. (all : List ℕ) → AreStored text (claim_view pages.old.claim) all → ArePagesOf pages.old text all
            → HoldsGroups all (groups_view self.now) → ⊥) }
        ensures bytes { IfOk result (λ before. (text all : List ℕ) → P.whole device.old ≡ Some text
            → ArePagesOf pages.old text all → before ≡ stored_before all (groups_view self.now) index) }
    {
        if index == self.count {
            return Ok(self.size);
        }
        let row = self.row(device, pages, index)?;
        Ok(row.before)
    }

    /// The number of groups whose keys are not above a key, if keys ascend. One row is read in each step of a binary
    /// search. The errors are those of [`CheckFault`].
    pub fn up_to<P: Placed>(
        &self,
        device: &mut P,
        pages: &mut Pages,
        key: u64,
    ) -> Result<u64, CheckFault>
        ensures claim { pages.new.claim ≡ pages.old.claim }
        ensures keeps { KeepsPages P.whole device.old pages.old pages.new }
        ensures within { IfOk result (λ count. count ≤ self.now.count) }
        ensures read { ReadsStored P.whole P.failures device.old device.new result
            (λ text count. (all : List ℕ) (groups : List GroupRecord) → ArePagesOf pages.old text all
            → AreGroupsIn all (groups_view self.now) groups
            → IsEdge (λ i. slice_index (keys_of groups) i ≤ key) 0 self.now.count count)
            (λ text. (all : List ℕ) → AreStored text (claim_view pages.old.claim) all → ArePagesOf pages.old text all
            → HoldsGroups all (groups_view self.now) → ⊥) }
    {
        let sought = KeysUpTo { groups: self, key };
        partition_point(device, pages, &sought, 0, self.count)
    }

    /// The offset of the bytes of the group at an index, and their number. The error is `Changed` if the groups have
    /// fewer bytes, or the group more than [`GROUP_MOST`]; otherwise it is one of reading.
    pub fn place<P: Placed>(
        &self,
        device: &mut P,
        pages: &mut Pages,
        index: u64,
    ) -> Result<(u64, usize), CheckFault>
        requires { index < self.now.count }
        ensures claim { pages.new.claim ≡ pages.old.claim }
        ensures keeps { KeepsPages P.whole device.old pages.old pages.new }
        ensures most { IfOk result (λ part. part.1 ≤ 5120) }
        ensures inside { IfOk result (λ part. part.0 + part.1 ≤ self.now.offset + 16 * self.now.count
            + self.now.size) }
        ensures read { ReadsStored P.whole P.failures device.old device.new result
            (λ text part. (all : List ℕ) (groups : List GroupRecord) → ArePagesOf pages.old text all
            → AreGroupsIn all (groups_view self.now) groups → IsBytesOf all groups index part.0 part.1)
            (λ text. (all : List ℕ) → AreStored text (claim_view pages.old.claim) all → ArePagesOf pages.old text all
            → HoldsGroups all (groups_view self.now) → ⊥) }
        ensures bytes { IfOk result (λ part. (text all : List ℕ) → P.whole device.old ≡ Some text
            → ArePagesOf pages.old text all → take part.1 (drop part.0 all)
            ≡ stored_group all (groups_view self.now) index) }
    {
        let begin = self.bytes_before(device, pages, index)?;
        let end = self.bytes_before(device, pages, index + 1)?;
        if begin > end || end > self.size || end - begin > GROUP_MOST as u64 {
            return Err(CheckFault::Changed);
        }
        Ok((self.bytes_offset() + begin, (end - begin) as usize))
    }
}
