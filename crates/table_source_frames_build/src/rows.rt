//! The rows of a table.

ghost use Rattle.std.specs.Prelude.{◌≡◌, ◌<◌, ◌+◌, ◌++◌, ◌^◌, OnOk, length};
ghost use Rattle.std.specs.Int.{w32, w64, to_be_bytes};
ghost use Rattle.table_source_frames_build.specs.Kept.{file_key_at, scope_key_at};
ghost use Rattle.table_source_frames_build.specs.KeptViews.{kept_view};
ghost use Rattle.table_source_frames_build.specs.Numbering.{IsNumber};
ghost use Rattle.table_source_frames_build.specs.PartBytes.{AreCounts, HaveNumbers, file_row, file_rows, scope_row};
ghost use Rattle.table_source_frames_build.specs.PartBytes.{scope_rows, text_numbers};
ghost use Rattle.table_source_frames_build.specs.PartNumbers.{AreNumbers};

use crate::kept::Kept;
use crate::parts::Parts;
use heap_memory::{Heap, NoMemory};

/// Adds a number as eight bytes.
pub(crate) fn push_u64(text: &mut Vec<u8, Heap>, number: u64) -> Result<(), NoMemory>
    ensures { OnOk result (text.new.items ≡ text.old.items ++ to_be_bytes w64 number) }
{
    text.extend_from_slice(&number.to_be_bytes())?;
    Ok(())
}

/// Adds a number as four bytes.
pub(crate) fn push_u32(text: &mut Vec<u8, Heap>, number: u32) -> Result<(), NoMemory>
    ensures { OnOk result (text.new.items ≡ text.old.items ++ to_be_bytes w32 number) }
{
    text.extend_from_slice(&number.to_be_bytes())?;
    Ok(())
}

impl<'a> Kept<'a> {
    /// Adds the row of a scope.
    fn push_scope(
        &self,
        text: &mut Vec<u8, Heap>,
        parts: &Parts,
        number: u32,
    ) -> Result<(), NoMemory>
        requires counts { AreCounts (kept_view self.now) parts.now }
        requires texts { HaveNumbers parts.now }
        requires number { IsNumber (length (kept_view self.now).scopes) number }
        ensures { OnOk result (text.new.items ≡ text.old.items ++ scope_row (kept_view self.now)
            parts.now.scopes.order.items parts.now.files.order.items (text_numbers parts.now)
            (scope_key_at (kept_view self.now) number)) }
    {
        let key = self.scope_key_of(number);
        let call = self.location_key_of(key.caller);
        push_u32(text, parts.texts.number_of(key.name))?;
        push_u32(text, parts.files.number_of(key.file))?;
        push_u32(text, call.line)?;
        push_u32(text, call.column)?;
        push_u32(text, parts.scopes.number_of(call.scope))
    }

    /// Adds the rows of these scopes.
    pub fn push_scope_rows(
        &self,
        text: &mut Vec<u8, Heap>,
        parts: &Parts,
        numbers: &[u32],
    ) -> Result<(), NoMemory>
        requires counts { AreCounts (kept_view self.now) parts.now }
        requires texts { HaveNumbers parts.now }
        requires numbers { AreNumbers (length (kept_view self.now).scopes) numbers.now }
        ensures { OnOk result (text.new.items ≡ text.old.items ++ scope_rows (kept_view self.now)
            parts.now.scopes.order.items parts.now.files.order.items (text_numbers parts.now) numbers.now) }
    {
        for number in numbers {
            self.push_scope(text, parts, *number)?;
        }
        Ok(())
    }

    /// Adds the row of a file.
    fn push_file(
        &self,
        text: &mut Vec<u8, Heap>,
        parts: &Parts,
        number: u32,
    ) -> Result<(), NoMemory>
        requires counts { AreCounts (kept_view self.now) parts.now }
        requires texts { HaveNumbers parts.now }
        requires number { IsNumber (length (kept_view self.now).files) number }
        ensures { OnOk result (text.new.items
            ≡ text.old.items ++ file_row (text_numbers parts.now) (file_key_at (kept_view self.now) number)) }
    {
        let key = self.file_key_of(number);
        push_u32(text, parts.texts.number_of(key.base))?;
        push_u32(text, parts.texts.number_of(key.directory))?;
        push_u32(text, parts.texts.number_of(key.name))
    }

    /// Adds the rows of these files.
    pub fn push_files(
        &self,
        text: &mut Vec<u8, Heap>,
        parts: &Parts,
        numbers: &[u32],
    ) -> Result<(), NoMemory>
        requires counts { AreCounts (kept_view self.now) parts.now }
        requires texts { HaveNumbers parts.now }
        requires numbers { AreNumbers (length (kept_view self.now).files) numbers.now }
        ensures { OnOk result (text.new.items
            ≡ text.old.items ++ file_rows (kept_view self.now) (text_numbers parts.now) numbers.now) }
    {
        for number in numbers {
            self.push_file(text, parts, *number)?;
        }
        Ok(())
    }
}
