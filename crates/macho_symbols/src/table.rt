//! The search by address in a table.

ghost use Rattle.std.specs.Prelude.{◌≡◌, ◌≢◌, IfOk, Some};
ghost use Rattle.std.specs.Option.{option_map};
ghost use Rattle.macho_symbols.specs.Symbols.{strings_of};
ghost use Rattle.macho_symbols.specs.Found.{FindsNearest};
ghost use Rattle.macho_symbols.specs.Steps.{SaysNearest};
ghost use Rattle.macho_symbols.specs.Views.{found_view};

use crate::found::Found;
use crate::name::strings_in;
use crate::nul_places::{collect_nul_places, name_from};
use crate::row::{Row, row_for};
use crate::section_places::{collect_places, section_names};
use crate::sweep::steps;
use crate::symbols::Symbols;
use heap_memory::{Heap, NoMemory};
use macho_image::Symtab;
use std::marker::Model;

/// The nearest symbol of each address of an image, step by step, so that one binary search finds that of an address. It
/// borrows nothing: names are offsets in the string table. A contract sees its rows, the offsets of the sections, the
/// offsets of NULs in the string table, and the LC_SYMTAB.
#[derive(Drop)]
pub struct AddressTable {
    rows: Vec<Row, Heap>,
    section_places: Vec<u32, Heap>,
    nul_places: Vec<usize, Heap>,
    symtab: Symtab,
}

impl Model for AddressTable {
    ghost use Rattle.macho_symbols.specs.Table.{TableParts};

    ghost Value = { TableParts };

    ghost view = { λ t. record {
      rows = t.rows.items;
      section_places = t.section_places.items;
      nul_places = t.nul_places.items;
      symtab = t.symtab;
    } };
}

impl AddressTable {
    ghost use Rattle.macho_symbols.specs.Table.{IsTableOf};

    /// The table of an image. It needs 24 bytes for each address at which candidates or sections begin or end, 4 for
    /// each section, and 8 for each 4096 bytes of the string table; while it is built, 24 more for each candidate, and
    /// up to two for each byte of the string table, if names that are compared overlap. The error is `NoMemory`.
    pub fn build(heap: Heap, symbols: &Symbols<'_>) -> Result<AddressTable, NoMemory>
        ensures { IfOk result (λ table. IsTableOf table symbols.now) }
    {
        let rows = steps(heap.share(), symbols)?;
        let section_places = collect_places(heap.share(), &symbols.image)?;
        let nul_places = collect_nul_places(heap, symbols.strings())?;
        Ok(AddressTable {
            rows,
            section_places,
            nul_places,
            symtab: symbols.table,
        })
    }

    /// The string table of the image.
    #[tactic(auto, unfolding(crate::specs::Symbols::strings_of))]
    fn strings<'b>(&self, image: &'b [u8]) -> &'b [u8]
        requires { IsTableOf self.now image.now }
        ensures { result.now ≡ strings_of image.now }
    {
        strings_in(image, &self.symtab)
    }

    /// The result for an address whose row has a symbol.
    fn found<'b>(&self, address: u64, row: &Row, image: &'b [u8]) -> Found<'b>
        requires table { IsTableOf self.now image.now }
        requires says { SaysNearest image.now address row.now }
        requires some { row.now.sect ≢ 0 }
        ensures { FindsNearest image.now address (Some (found_view result)) }
    {
        let (segment, section) = section_names(&self.section_places, row.sect, image);
        Found {
            name: name_from(self.strings(image), &self.nul_places, row.n_strx),
            address: row.value,
            offset: address.saturating_sub(row.value),
            sect: row.sect,
            segment,
            section,
        }
    }

    /// The nearest symbol of an address, the same as that of `Symbols::nearest_plain`, by binary search. The slice is
    /// the image whose symbols the table was built from; the names are borrowed from it.
    pub fn nearest<'b>(&self, address: u64, slice: &'b [u8]) -> Option<Found<'b>>
        requires { IsTableOf self.now slice.now }
        ensures { FindsNearest slice.now address (option_map found_view result) }
    {
        let row = row_for(&self.rows, address)?;
        if row.sect == 0 {
            return None;
        }
        Some(self.found(address, &row, slice))
    }
}
