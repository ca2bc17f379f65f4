//! The opening of a line table, which reads its head.

ghost use Rattle.std.specs.Prelude.{◌≡◌, ◌+◌, ◌++◌, ◌*◌, ◌≤◌, ℕ, List, IfOk, IfSome, MatchOption, None, Some};
ghost use Rattle.std.specs.Prelude.{length, take, drop};
ghost use Rattle.std.specs.Int.{w64, from_be_bytes};
ghost use Rattle.macho_symbols.specs.Symbols.{strings_of};
ghost use Rattle.table_checked_pages.specs.Groups.{groups_in};
ghost use Rattle.table_checked_pages.specs.Pages.{AreStored};
ghost use Rattle.table_checked_pages.specs.Standing.{IsRestFrom};
ghost use Rattle.table_checked_pages.specs.Views.{ArePagesOf, KeepsPages, claim_view};
ghost use Rattle.table_checked_pages.specs.Reading.{ReadsStored};
ghost use Rattle.table_source_frames.specs.LineTable.{IsLineTable, no_lines};
ghost use Rattle.table_source_frames.specs.OfBytes.{IsFoundIn, IsTrueOfBytes};
ghost use Rattle.table_source_frames.specs.Opened.{IsOpened};
ghost use Rattle.table_source_frames.specs.Steps.{AreFrameSteps, StepRecord};

use crate::row::{FILE_LEN, SCOPE_LEN, TEXT_LEN};
use crate::table::{HEAD_LEN, LineTable};
use byte_device::Placed;
use table_checked_pages::{CheckFault, GROUP_LEN, Pages, groups_in, u64_be_at};

/// The fields of a head: whether there are lines, and the size of each part.
#[derive(Clone, Copy)]
struct Head {
    lines: u64,
    steps: u64,
    step_bytes: u64,
    scopes: u64,
    files: u64,
    texts: u64,
    bytes: u64,
}

/// The head with these bytes.
fn head_of(bytes: &[u8]) -> Head
    requires { length bytes.now ≡ 56 }
    ensures lines { result.lines ≡ from_be_bytes w64 (take 8 (drop 0 bytes.now)) }
    ensures steps { result.steps ≡ from_be_bytes w64 (take 8 (drop 8 bytes.now)) }
    ensures step_bytes { result.step_bytes ≡ from_be_bytes w64 (take 8 (drop 16 bytes.now)) }
    ensures scopes { result.scopes ≡ from_be_bytes w64 (take 8 (drop 24 bytes.now)) }
    ensures files { result.files ≡ from_be_bytes w64 (take 8 (drop 32 bytes.now)) }
    ensures texts { result.texts ≡ from_be_bytes w64 (take 8 (drop 40 bytes.now)) }
    ensures bytes { result.bytes ≡ from_be_bytes w64 (take 8 (drop 48 bytes.now)) }
{
    Head {
        lines: u64_be_at(bytes, 0),
        steps: u64_be_at(bytes, 8),
        step_bytes: u64_be_at(bytes, 16),
        scopes: u64_be_at(bytes, 24),
        files: u64_be_at(bytes, 32),
        texts: u64_be_at(bytes, 40),
        bytes: u64_be_at(bytes, 48),
    }
}

impl Head {
    /// The size of a table with this head in bytes.
    fn len(&self) -> u128
        ensures { result ≡ 56 + 16 * groups_in self.now.steps + self.now.step_bytes + 20 * self.now.scopes
            + 12 * self.now.files + 8 * self.now.texts + self.now.bytes }
    {
        let groups = GROUP_LEN as u128 * u128::from(groups_in(self.steps));
        let steps = groups + u128::from(self.step_bytes);
        let scopes = SCOPE_LEN as u128 * u128::from(self.scopes);
        let files = FILE_LEN as u128 * u128::from(self.files);
        let texts = TEXT_LEN as u128 * u128::from(self.texts);
        HEAD_LEN as u128 + steps + scopes + files + texts + u128::from(self.bytes)
    }

    /// The table with this head at an offset, after strings from another offset on; `None` if its end is not at `size`.
    fn table(&self, strings: u64, offset: u64, size: u64) -> Option<LineTable>
        requires { strings ≤ offset }
        ensures strings { IfSome result (λ table. table.strings ≡ strings) }
        ensures offset { IfSome result (λ table. table.offset ≡ offset) }
        ensures steps { IfSome result (λ table. table.steps ≡ self.now.steps) }
        ensures step_bytes { IfSome result (λ table. table.step_bytes ≡ self.now.step_bytes) }
        ensures scopes { IfSome result (λ table. table.scopes ≡ self.now.scopes) }
        ensures files { IfSome result (λ table. table.files ≡ self.now.files) }
        ensures texts { IfSome result (λ table. table.texts ≡ self.now.texts) }
        ensures bytes { IfSome result (λ table. table.bytes ≡ self.now.bytes) }
        ensures adds { IfSome result (λ _. offset + 56 + 16 * groups_in self.now.steps + self.now.step_bytes
            + 20 * self.now.scopes + 12 * self.now.files + 8 * self.now.texts + self.now.bytes ≡ size) }
        ensures none { result ≡ None → offset + 56 + 16 * groups_in self.now.steps + self.now.step_bytes
            + 20 * self.now.scopes + 12 * self.now.files + 8 * self.now.texts + self.now.bytes ≡ size → ⊥ }
    {
        if u128::from(offset) + self.len() != u128::from(size) {
            return None;
        }
        Some(LineTable {
            strings,
            offset,
            steps: self.steps,
            step_bytes: self.step_bytes,
            scopes: self.scopes,
            files: self.files,
            texts: self.texts,
            bytes: self.bytes,
        })
    }
}

impl LineTable {
    /// The line table at an offset of stored bytes, up to their end, after the strings of the slice from another offset
    /// on; `None` if it has no lines. The error is `Changed` if a page differs from its digest or the head does not fit
    /// the size, `Device` or `OutOfMemory`.
    pub fn open<P: Placed>(
        device: &mut P,
        pages: &mut Pages,
        strings: u64,
        offset: u64,
    ) -> Result<Option<LineTable>, CheckFault>
        requires { strings ≤ offset }
        ensures claim { pages.new.claim ≡ pages.old.claim }
        ensures keeps { KeepsPages P.whole device.old pages.old pages.new }
        ensures read { ReadsStored P.whole P.failures device.old device.new result
            (λ text found. (image all bytes : List ℕ) → ArePagesOf pages.old text all → IsLineTable image bytes
            → IsRestFrom all strings (strings_of image ++ bytes) → strings + length (strings_of image) ≡ offset
            → MatchOption found (bytes ≡ no_lines) (λ table. (steps : List StepRecord) × AreFrameSteps image steps
            × IsOpened table pages.new text all (strings_of image) steps))
            (λ text. (image all bytes : List ℕ) → AreStored text (claim_view pages.old.claim) all
            → ArePagesOf pages.old text all → IsLineTable image bytes
            → IsRestFrom all strings (strings_of image ++ bytes) → strings + length (strings_of image) ≡ offset
            → ⊥) }
        ensures bytes { IfOk result (λ found. IsTrueOfBytes P.whole device.old pages.old
            (λ all. IsFoundIn all strings offset found)) }
    {
        let mut bytes = [0; HEAD_LEN];
        pages.read(device, offset, &mut bytes)?;
        let head = head_of(&bytes);
        if head.lines == 0 {
            return Ok(None);
        }
        let Some(table) = head.table(strings, offset, pages.size()) else {
            return Err(CheckFault::Changed);
        };
        Ok(Some(table))
    }
}
