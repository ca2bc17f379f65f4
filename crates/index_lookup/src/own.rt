//! The answer of a table for an address.

ghost use Rattle.std.specs.Prelude.{◌≡◌, ℕ, List, Some};
ghost use Rattle.table_checked_pages.specs.Pages.{AreStored};
ghost use Rattle.table_checked_pages.specs.Views.{claim_view};
ghost use Rattle.table_checked_pages.specs.Reading.{ReadsStored};
ghost use Rattle.table_symbols.specs.Steps.{AreBytes};
ghost use Rattle.table_symbols.specs.Table.{IsTableOf, TableParts, table_bytes};
ghost use Rattle.table_symbols.specs.Opened.{IsOpened, IsOpenedIn};
ghost use Rattle.archive_core.specs.Lookup.{IsOwn};
ghost use Rattle.index_lookup.specs.Views.{told_view};

use archive_core::Where;
use byte_device::Placed;
use heap_memory::Heap;
use table_checked_pages::CheckFault;
use table_symbols::{OwnedFound, Table};

/// The answer of a table for an address.
pub(crate) fn own_of<P: Placed>(
    heap: Heap,
    device: &mut P,
    table: &mut Table,
    asked: Where,
) -> Result<Option<OwnedFound>, CheckFault>
    ensures claim { table.new.pages.claim ≡ table.old.pages.claim }
    ensures keeps { (text : List ℕ) (t : TableParts) → P.whole device.old ≡ Some text → IsOpened table.old text t
        → IsOpened table.new text t }
    ensures bytes { (text all : List ℕ) → P.whole device.old ≡ Some text → IsOpenedIn table.old text all
        → IsOpenedIn table.new text all }
    ensures read { ReadsStored P.whole P.failures device.old device.new result
        (λ text own. (slice : List ℕ) (t : TableParts) → AreBytes slice → IsTableOf slice t
        → IsOpened table.old text t → IsOwn slice asked (told_view own))
        (λ text. (t : TableParts) → IsOpened table.old text t
        → AreStored text (claim_view table.old.pages.claim) (table_bytes t) → ⊥) }
{
    match asked.address_by(table.text_base()) {
        Some(address) => table.found(heap, device, address),
        None => Ok(None),
    }
}
