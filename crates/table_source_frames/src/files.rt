//! The files of a table, by their numbers.

ghost use Rattle.std.specs.Prelude.{◌≡◌, IfOk, Option, Some};
ghost use Rattle.std.specs.Option.{option_map};
ghost use Rattle.table_checked_pages.specs.Views.{KeepsPages};
ghost use Rattle.dwarf_lines.specs.Paths.{PathRecord};
ghost use Rattle.table_source_frames.specs.FrameViews.{owned_path_view};
ghost use Rattle.table_source_frames.specs.Inner.{HasTextsOf, IsFileIn, IsFileNumber, IsFileRow, IsMaybeFile};
ghost use Rattle.table_source_frames.specs.OfBytes.{IsMaybeStoredPath, IsTrueOfBytes};
ghost use Rattle.table_source_frames.specs.Opened.{ReadsPart};

use crate::frame::OwnedPath;
use crate::row::{FILE_LEN, File, index_of};
use crate::table::LineTable;
use byte_device::Placed;
use heap_memory::Heap;
use table_checked_pages::{CheckFault, Pages, u32_be_at};

impl LineTable {
    /// The row of the file with a number.
    fn file_row<P: Placed>(
        &self,
        device: &mut P,
        pages: &mut Pages,
        number: u32,
    ) -> Result<File, CheckFault>
        ensures claim { pages.new.claim ≡ pages.old.claim }
        ensures keeps { KeepsPages P.whole device.old pages.old pages.new }
        ensures read { ReadsPart PathRecord P.whole P.failures device.old device.new result self.now pages.old
            (λ parts path. IsFileNumber parts number path)
            (λ parts path row. IsFileRow parts row path) }
        ensures bytes { IfOk result (λ row. IsTrueOfBytes P.whole device.old pages.old
            (λ all. IsFileIn self.now all number row)) }
    {
        let Some(index) = index_of(number, self.files) else {
            return Err(CheckFault::Changed);
        };
        let mut bytes = [0; FILE_LEN];
        let offset = self.first_file() + FILE_LEN as u64 * index;
        pages.read(device, offset, &mut bytes)?;
        Ok(File {
            base: u32_be_at(&bytes, 0),
            directory: u32_be_at(&bytes, 4),
            name: u32_be_at(&bytes, 8),
        })
    }

    /// The path with a row.
    fn path_of<P: Placed>(
        &self,
        heap: Heap,
        device: &mut P,
        pages: &mut Pages,
        row: File,
    ) -> Result<OwnedPath, CheckFault>
        ensures claim { pages.new.claim ≡ pages.old.claim }
        ensures keeps { KeepsPages P.whole device.old pages.old pages.new }
        ensures read { ReadsPart PathRecord P.whole P.failures device.old device.new result self.now pages.old
            (λ parts told. IsFileRow parts row told)
            (λ _ told path. owned_path_view path ≡ told) }
        ensures bytes { IfOk result (λ path. IsTrueOfBytes P.whole device.old pages.old
            (λ all. HasTextsOf self.now all row (owned_path_view path))) }
    {
        let base = self.text(heap.share(), device, pages, row.base)?;
        let directory = self.text(heap.share(), device, pages, row.directory)?;
        let name = self.text(heap, device, pages, row.name)?;
        Ok(OwnedPath {
            base,
            directory,
            name,
        })
    }

    /// The path of the file with a number; `None` for 0.
    pub(crate) fn maybe_path<P: Placed>(
        &self,
        heap: Heap,
        device: &mut P,
        pages: &mut Pages,
        number: u32,
    ) -> Result<Option<OwnedPath>, CheckFault>
        ensures claim { pages.new.claim ≡ pages.old.claim }
        ensures keeps { KeepsPages P.whole device.old pages.old pages.new }
        ensures read { ReadsPart (Option PathRecord) P.whole P.failures device.old device.new result self.now pages.old
            (λ parts told. IsMaybeFile parts number told)
            (λ _ told found. option_map owned_path_view found ≡ told) }
        ensures bytes { IfOk result (λ found. IsTrueOfBytes P.whole device.old pages.old
            (λ all. IsMaybeStoredPath self.now all number (option_map owned_path_view found))) }
    {
        if number == 0 {
            return Ok(None);
        }
        let row = self.file_row(device, pages, number)?;
        let path = self.path_of(heap, device, pages, row)?;
        Ok(Some(path))
    }
}
