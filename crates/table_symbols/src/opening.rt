//! The opening of a stored table, which reads its head.

ghost use Rattle.std.specs.Prelude.{◌≡◌, ◌+◌, ◌*◌, ◌<◌, ◌^◌, ℕ, ◌↔◌, List, Option, Some, IfOk, IsTrue, length};
ghost use Rattle.table_checked_pages.specs.Pages.{AreStored, MayBeStored};
ghost use Rattle.table_checked_pages.specs.Views.{claim_view};
ghost use Rattle.table_checked_pages.specs.Reading.{ReadsStored};
ghost use Rattle.table_symbols.specs.Table.{FitsTable, TableParts, base_flag, base_or_zero, head_bytes, table_bytes};
ghost use Rattle.table_symbols.specs.Opened.{HasCounts, IsHeadOf, IsOpened, IsOpenedIn};

use crate::head::Head;
use crate::row::ROW_LEN;
use crate::table::Table;
use byte_device::Placed;
use heap_memory::Heap;
use table_checked_pages::{CheckFault, Claim, Pages, u64_be_at};

/// The size of the head in bytes.
pub(crate) const HEAD_LEN: usize = 48;

/// The size of the names of a section in bytes.
pub(crate) const SECTION_LEN: u64 = 32;

/// The vmaddr of a head; `None` if its flag is 0.
fn base_of(flag: u64, value: u64) -> Option<u64>
    ensures { (base : Option ℕ) → flag ≡ base_flag base → value ≡ base_or_zero base → result ≡ base }
{
    if flag == 0 { None } else { Some(value) }
}

/// The head with these bytes.
fn head_of(bytes: &[u8]) -> Head
    requires { length bytes.now ≡ 48 }
    ensures is { (t : TableParts) → FitsTable t → bytes.now ≡ head_bytes t → IsHeadOf result t }
    ensures counts { HasCounts result bytes.now }
{
    Head {
        base: base_of(u64_be_at(bytes, 0), u64_be_at(bytes, 8)),
        sections: u64_be_at(bytes, 16),
        rows: u64_be_at(bytes, 24),
        strings: u64_be_at(bytes, 32),
        lines: u64_be_at(bytes, 40),
    }
}

/// Whether a table with this head has `size` bytes.
fn has_size(head: &Head, size: u64) -> bool
    ensures { IsTrue result
        ↔ (size ≡ 48 + 32 * head.now.sections + 21 * head.now.rows + head.now.strings + head.now.lines) }
{
    let names = u128::from(SECTION_LEN) * u128::from(head.sections);
    let rows = ROW_LEN as u128 * u128::from(head.rows);
    let parts = u128::from(head.strings) + u128::from(head.lines);
    u128::from(size) == HEAD_LEN as u128 + names + rows + parts
}

impl Table {
    /// The table of a claim; its head is read. The error is `Changed` if a page differs from its digest or the head
    /// does not fit the size of the claim, `Device` or `OutOfMemory`.
    pub fn open<P: Placed>(heap: Heap, device: &mut P, claim: Claim) -> Result<Table, CheckFault>
        ensures claim { IfOk result (λ table. table.pages.claim ≡ claim) }
        ensures bytes { IfOk result (λ table. (text all : List ℕ) → P.whole device.old ≡ Some text
            → MayBeStored text (claim_view claim) all → IsOpenedIn table text all) }
        ensures read { ReadsStored P.whole P.failures device.old device.new result
            (λ text table. (t : TableParts) → FitsTable t → MayBeStored text (claim_view claim) (table_bytes t)
            → IsOpened table text t)
            (λ text. length text < 2 ^ 64 → (t : TableParts) → FitsTable t
            → AreStored text (claim_view claim) (table_bytes t) → ⊥) }
    {
        let mut pages = Pages::open(heap, claim)?;
        let mut bytes = [0; HEAD_LEN];
        pages.read(device, 0, &mut bytes)?;
        let head = head_of(&bytes);
        if !has_size(&head, claim.size) {
            return Err(CheckFault::Changed);
        }
        Ok(Table { pages, head })
    }
}
