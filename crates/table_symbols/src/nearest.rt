//! The nearest symbol of an address, from a stored table.

ghost use Rattle.std.specs.Prelude.{◌≡◌, ◌+◌, ◌*◌, ◌<◌, ℕ, List, Some};
ghost use Rattle.table_checked_pages.specs.Pages.{AreStored};
ghost use Rattle.table_checked_pages.specs.Views.{claim_view};
ghost use Rattle.table_checked_pages.specs.Reading.{ReadsStored};
ghost use Rattle.table_symbols.specs.Steps.{AreBytes};
ghost use Rattle.table_symbols.specs.Table.{IsTableOf, TableParts, table_bytes};
ghost use Rattle.table_symbols.specs.Found.{IsSaid};
ghost use Rattle.table_symbols.specs.Opened.{IsOpened, IsOpenedIn};

use crate::Table;
use crate::names::name_from;
use crate::opening::{HEAD_LEN, SECTION_LEN};
use crate::row::ROW_LEN;
use crate::search::row_for;
use byte_device::Placed;
use heap_memory::Heap;
use macho_symbols::Row;
use table_checked_pages::CheckFault;

/// The nearest symbol of an address.
#[derive(Drop)]
pub struct NearestSymbol {
    /// The row of the address.
    pub row: Row,
    /// The name.
    pub name: Vec<u8, Heap>,
}

impl Table {
    /// The offset of the first row in the table.
    fn first_row(&self) -> u64
        ensures { result ≡ 48 + 32 * self.now.head.sections }
    {
        HEAD_LEN as u64 + SECTION_LEN * self.head.sections
    }

    /// The offset of the first byte of the strings in the table.
    pub(crate) fn first_string(&self) -> u64
        ensures { result ≡ 48 + 32 * self.now.head.sections + 21 * self.now.head.rows }
    {
        self.first_row() + ROW_LEN as u64 * self.head.rows
    }

    /// The offset of the first byte of the lines in the table.
    pub(crate) fn first_line(&self) -> u64
        ensures { result ≡ 48 + 32 * self.now.head.sections + 21 * self.now.head.rows + self.now.head.strings }
    {
        self.first_string() + self.head.strings
    }

    /// The nearest symbol of an address of the file; `None` if there is none. The errors are those of [`CheckFault`].
    pub fn nearest<P: Placed>(
        &mut self,
        heap: Heap,
        device: &mut P,
        address: u64,
    ) -> Result<Option<NearestSymbol>, CheckFault>
        ensures claim { self.new.pages.claim ≡ self.old.pages.claim }
        ensures keeps { (text : List ℕ) (t : TableParts) → P.whole device.old ≡ Some text → IsOpened self.old text t
            → IsOpened self.new text t }
        ensures bytes { (text all : List ℕ) → P.whole device.old ≡ Some text → IsOpenedIn self.old text all
            → IsOpenedIn self.new text all }
        ensures read { ReadsStored P.whole P.failures device.old device.new result
            (λ text found. (image : List ℕ) (t : TableParts) → AreBytes image → IsTableOf image t
            → IsOpened self.old text t → IsSaid image address found)
            (λ text. (t : TableParts) → IsOpened self.old text t
            → AreStored text (claim_view self.old.pages.claim) (table_bytes t) → ⊥) }
    {
        let first = self.first_row();
        let Some(row) = row_for(device, &mut self.pages, first, self.head.rows, address)? else {
            return Ok(None);
        };
        if row.sect == 0 {
            return Ok(None);
        }
        let first = self.first_string();
        let name = name_from(
            heap,
            device,
            &mut self.pages,
            first,
            self.head.strings,
            u64::from(row.n_strx),
        )?;
        Ok(Some(NearestSymbol { row, name }))
    }
}
