//! The texts of a table, by their numbers.

ghost use Rattle.std.specs.Prelude.{◌≡◌, ◌<◌, ◌≤◌, ◌+◌, ℕ, List, Option, Some, IfErr, IfOk, length, slice_get};
ghost use Rattle.std.specs.Prelude.{drop, take};
ghost use Rattle.std.specs.Option.{option_map};
ghost use Rattle.table_checked_pages.specs.Pages.{AreStored};
ghost use Rattle.table_checked_pages.specs.Views.{KeepsPages, claim_view};
ghost use Rattle.table_checked_pages.specs.Reading.{ReadsStored};
ghost use Rattle.table_source_frames.specs.Inner.{IsMaybeText, IsOtherText, IsTextIn, IsTextNumber, IsTextRow};
ghost use Rattle.table_source_frames.specs.LineText.{others_of, parts_of, string_at};
ghost use Rattle.table_source_frames.specs.OfBytes.{IsMaybeStoredText, IsStoredText, IsText, IsTrueOfBytes};
ghost use Rattle.table_source_frames.specs.OfBytes.{strings_in, texts_at};
ghost use Rattle.table_source_frames.specs.Opened.{IsOpened, ReadsPart, ReadsTable};
ghost use Rattle.table_source_frames.specs.Steps.{StepRecord};

use crate::row::{TEXT_LEN, Text, index_of};
use crate::table::LineTable;
use byte_device::Placed;
use heap_memory::Heap;
use table_checked_pages::{CheckFault, Pages, u32_be_at};
use table_symbols::name_from;

/// `count` zeros. The error is `OutOfMemory`.
fn zeros(heap: Heap, count: usize) -> Result<Vec<u8, Heap>, CheckFault>
    ensures long { IfOk result (λ zeros. length zeros.items ≡ count) }
    ensures fault { IfErr result (λ fault. fault ≡ CheckFault.OutOfMemory) }
{
    let mut zeros = Vec::new(heap);
    match zeros.resize(count, 0) {
        Ok(()) => Ok(zeros),
        Err(_) => Err(CheckFault::OutOfMemory),
    }
}

impl LineTable {
    /// The row of the text at an index.
    fn text_row<P: Placed>(
        &self,
        device: &mut P,
        pages: &mut Pages,
        index: u64,
    ) -> Result<Text, CheckFault>
        requires { index < self.now.texts }
        ensures claim { pages.new.claim ≡ pages.old.claim }
        ensures keeps { KeepsPages P.whole device.old pages.old pages.new }
        ensures read { ReadsTable P.whole P.failures device.old device.new result self.now pages.old
            (λ parts row. IsTextRow parts index row) }
        ensures bytes { IfOk result (λ row. IsTrueOfBytes P.whole device.old pages.old
            (λ all. IsTextIn self.now all (index + 1) row)) }
    {
        let mut bytes = [0; TEXT_LEN];
        let offset = self.first_text() + TEXT_LEN as u64 * index;
        pages.read(device, offset, &mut bytes)?;
        Ok(Text {
            place: u32_be_at(&bytes, 0),
            length: u32_be_at(&bytes, 4),
        })
    }

    /// The text of a row: exactly as many bytes are read as the row states.
    fn text_of<P: Placed>(
        &self,
        heap: Heap,
        device: &mut P,
        pages: &mut Pages,
        row: Text,
    ) -> Result<Vec<u8, Heap>, CheckFault>
        ensures claim { pages.new.claim ≡ pages.old.claim }
        ensures keeps { KeepsPages P.whole device.old pages.old pages.new }
        ensures read { ReadsStored P.whole P.failures device.old device.new result
            (λ text bytes. (all strings : List ℕ) (steps : List StepRecord) (index : ℕ)
            → IsOpened self.now pages.old text all strings steps → index < length (others_of (parts_of strings steps))
            → IsTextRow (parts_of strings steps) index row
            → slice_get (others_of (parts_of strings steps)) index ≡ Some bytes.items)
            (λ text. (all strings : List ℕ) (steps : List StepRecord) (index : ℕ)
            → AreStored text (claim_view pages.old.claim) all → IsOpened self.now pages.old text all strings steps
            → index < length (others_of (parts_of strings steps)) → IsTextRow (parts_of strings steps) index row
            → ⊥) }
        ensures inside { IfOk result (λ bytes. row.place + row.length ≤ self.now.bytes) }
        ensures bytes { IfOk result (λ bytes. IsTrueOfBytes P.whole device.old pages.old
            (λ all. bytes.items ≡ take row.length (drop (texts_at self.now + row.place) all))) }
    {
        let end = u64::from(row.place) + u64::from(row.length);
        if end > self.bytes {
            return Err(CheckFault::Changed);
        }
        let mut bytes = zeros(heap, row.length as usize)?;
        let offset = self.texts_offset() + u64::from(row.place);
        pages.read(device, offset, &mut bytes[..])?;
        Ok(bytes)
    }

    /// The text at an offset of the strings.
    fn string<P: Placed>(
        &self,
        heap: Heap,
        device: &mut P,
        pages: &mut Pages,
        offset: u64,
    ) -> Result<Vec<u8, Heap>, CheckFault>
        ensures claim { pages.new.claim ≡ pages.old.claim }
        ensures keeps { KeepsPages P.whole device.old pages.old pages.new }
        ensures read { ReadsTable P.whole P.failures device.old device.new result self.now pages.old
            (λ parts bytes. bytes.items ≡ string_at parts.strings offset) }
        ensures bytes { IfOk result (λ bytes. IsTrueOfBytes P.whole device.old pages.old
            (λ all. bytes.items ≡ string_at (strings_in self.now all) offset)) }
    {
        name_from(
            heap,
            device,
            pages,
            self.strings,
            self.strings_len(),
            offset,
        )
    }

    /// The text with a number among those after the strings.
    fn other_text<P: Placed>(
        &self,
        heap: Heap,
        device: &mut P,
        pages: &mut Pages,
        number: u32,
    ) -> Result<Vec<u8, Heap>, CheckFault>
        ensures claim { pages.new.claim ≡ pages.old.claim }
        ensures keeps { KeepsPages P.whole device.old pages.old pages.new }
        ensures read { ReadsPart (List ℕ) P.whole P.failures device.old device.new result self.now pages.old
            (λ parts told. IsOtherText parts number told)
            (λ _ told bytes. bytes.items ≡ told) }
        ensures bytes { IfOk result (λ bytes. IsTrueOfBytes P.whole device.old pages.old
            (λ all. IsStoredText self.now all number bytes.items)) }
    {
        let Some(index) = index_of(number, self.texts) else {
            return Err(CheckFault::Changed);
        };
        let row = self.text_row(device, pages, index)?;
        let bytes = self.text_of(heap, device, pages, row)?;
        Ok(bytes)
    }

    /// The text with a number: one of the strings, or one after them.
    pub(crate) fn text<P: Placed>(
        &self,
        heap: Heap,
        device: &mut P,
        pages: &mut Pages,
        number: u32,
    ) -> Result<Vec<u8, Heap>, CheckFault>
        ensures claim { pages.new.claim ≡ pages.old.claim }
        ensures keeps { KeepsPages P.whole device.old pages.old pages.new }
        ensures read { ReadsPart (List ℕ) P.whole P.failures device.old device.new result self.now pages.old
            (λ parts told. IsTextNumber parts number told)
            (λ _ told bytes. bytes.items ≡ told) }
        ensures bytes { IfOk result (λ bytes. IsTrueOfBytes P.whole device.old pages.old
            (λ all. IsText self.now all number bytes.items)) }
    {
        let strings = self.strings_len();
        if u64::from(number) > strings {
            return self.other_text(heap, device, pages, number - strings as u32);
        }
        let Some(offset) = index_of(number, strings) else {
            return Err(CheckFault::Changed);
        };
        self.string(heap, device, pages, offset)
    }

    /// The text with a number; `None` for 0.
    pub(crate) fn maybe_text<P: Placed>(
        &self,
        heap: Heap,
        device: &mut P,
        pages: &mut Pages,
        number: u32,
    ) -> Result<Option<Vec<u8, Heap>>, CheckFault>
        ensures claim { pages.new.claim ≡ pages.old.claim }
        ensures keeps { KeepsPages P.whole device.old pages.old pages.new }
        ensures read { ReadsPart (Option (List ℕ)) P.whole P.failures device.old device.new result self.now pages.old
            (λ parts told. IsMaybeText parts number told)
            (λ _ told found. option_map (λ n. n.items) found ≡ told) }
        ensures bytes { IfOk result (λ found. IsTrueOfBytes P.whole device.old pages.old
            (λ all. IsMaybeStoredText self.now all number (option_map (λ n. n.items) found))) }
    {
        if number == 0 {
            return Ok(None);
        }
        let text = self.text(heap, device, pages, number)?;
        Ok(Some(text))
    }
}
