//! The result for an address in a stored table, with the names of its section.

ghost use Rattle.std.specs.Prelude.{◌≡◌, ◌+◌, ◌*◌, ◌-◌, ◌<◌, ◌^◌, ℕ, List, Some};
ghost use Rattle.std.specs.Option.{option_map};
ghost use Rattle.table_checked_pages.specs.Pages.{AreStored};
ghost use Rattle.table_checked_pages.specs.Views.{claim_view};
ghost use Rattle.table_checked_pages.specs.Reading.{ReadsStored};
ghost use Rattle.macho_image.specs.Layout.{name_at};
ghost use Rattle.macho_symbols.specs.Found.{FindsNearest};
ghost use Rattle.macho_symbols.specs.Views.{found_view};
ghost use Rattle.table_symbols.specs.Steps.{AreBytes};
ghost use Rattle.table_symbols.specs.Table.{IsTableOf, TableParts, table_bytes};
ghost use Rattle.table_symbols.specs.Found.{names_at, owned_view};
ghost use Rattle.table_symbols.specs.Opened.{IsOpened, IsOpenedIn};

use crate::Table;
use crate::nearest::NearestSymbol;
use crate::opening::{HEAD_LEN, SECTION_LEN};
use byte_device::Placed;
use heap_memory::Heap;
use macho_image::before_nul;
use macho_symbols::Found;
use table_checked_pages::CheckFault;

/// A symbol that was found. It owns its names.
#[derive(Drop)]
pub struct OwnedFound {
    /// The symbol.
    pub symbol: NearestSymbol,
    /// The distance from the symbol to the address that was looked up.
    pub offset: u64,
    /// `segname` and `sectname` of its section, 16 bytes each; zeros if the slice has no section with that number.
    pub names: [u8; 32],
}

impl OwnedFound {
    /// `segname`: the name of the segment, as the section has it.
    fn segment(&self) -> &[u8]
        ensures { result.now ≡ name_at self.now.names 0 }
    {
        before_nul(&self.names[..16])
    }

    /// `sectname`: the name of the section.
    fn section(&self) -> &[u8]
        ensures { result.now ≡ name_at self.now.names 16 }
    {
        before_nul(&self.names[16..32])
    }

    /// The same result with its names borrowed.
    pub fn borrowed(&self) -> Found<'_>
        ensures { found_view result ≡ owned_view self.now }
    {
        Found {
            name: &self.symbol.name,
            address: self.symbol.row.value,
            offset: self.offset,
            sect: self.symbol.row.sect,
            segment: self.segment(),
            section: self.section(),
        }
    }
}

impl Table {
    /// The `vmaddr` of the first segment named `__TEXT`.
    pub fn text_base(&self) -> Option<u64>
        ensures { result ≡ self.now.head.base }
    {
        self.head.base
    }

    /// The names of the section with a number, from 1 on; zeros if there is no such section. The errors are those of
    /// [`CheckFault`].
    fn section_names<P: Placed>(&mut self, device: &mut P, sect: u8) -> Result<[u8; 32], CheckFault>
        ensures fits { sect < 2 ^ 8 }
        ensures claim { self.new.pages.claim ≡ self.old.pages.claim }
        ensures keeps { (text : List ℕ) (t : TableParts) → P.whole device.old ≡ Some text → IsOpened self.old text t
            → IsOpened self.new text t }
        ensures bytes { (text all : List ℕ) → P.whole device.old ≡ Some text → IsOpenedIn self.old text all
            → IsOpenedIn self.new text all }
        ensures read { ReadsStored P.whole P.failures device.old device.new result
            (λ text names. (t : TableParts) → IsOpened self.old text t → names ≡ names_at t.names sect)
            (λ text. (t : TableParts) → IsOpened self.old text t
            → AreStored text (claim_view self.old.pages.claim) (table_bytes t) → ⊥) }
    {
        let mut names = [0; SECTION_LEN as usize];
        if sect == 0 || u64::from(sect) > self.head.sections {
            return Ok(names);
        }
        let first = HEAD_LEN as u64 + SECTION_LEN * u64::from(sect - 1);
        self.pages.read(device, first, &mut names)?;
        Ok(names)
    }

    /// The result for an address of the file; `None` if it has no nearest symbol. The errors are those of
    /// [`CheckFault`].
    pub fn found<P: Placed>(
        &mut self,
        heap: Heap,
        device: &mut P,
        address: u64,
    ) -> Result<Option<OwnedFound>, CheckFault>
        ensures claim { self.new.pages.claim ≡ self.old.pages.claim }
        ensures keeps { (text : List ℕ) (t : TableParts) → P.whole device.old ≡ Some text → IsOpened self.old text t
            → IsOpened self.new text t }
        ensures bytes { (text all : List ℕ) → P.whole device.old ≡ Some text → IsOpenedIn self.old text all
            → IsOpenedIn self.new text all }
        ensures read { ReadsStored P.whole P.failures device.old device.new result
            (λ text found. (image : List ℕ) (t : TableParts) → AreBytes image → IsTableOf image t
            → IsOpened self.old text t → FindsNearest image address (option_map owned_view found))
            (λ text. (t : TableParts) → IsOpened self.old text t
            → AreStored text (claim_view self.old.pages.claim) (table_bytes t) → ⊥) }
    {
        let Some(symbol) = self.nearest(heap, device, address)? else {
            return Ok(None);
        };
        let names = self.section_names(device, symbol.row.sect)?;
        let offset = address.saturating_sub(symbol.row.value);
        Ok(Some(OwnedFound {
            symbol,
            offset,
            names,
        }))
    }
}
