//! The texts of a table.

ghost use Rattle.std.specs.Prelude.{◌≡◌, ◌≤◌, ◌<◌, ◌++◌, ◌^◌, MatchOption, OnOk, length};
ghost use Rattle.std.specs.List.{concat};
ghost use Rattle.table_source_frames.specs.LineText.{text_rows};
ghost use Rattle.table_source_frames_build.specs.KeptViews.{kept_view};
ghost use Rattle.table_source_frames_build.specs.PartBytes.{texts_at};
ghost use Rattle.table_source_frames_build.specs.PartNumbers.{AreNumbers};

use crate::kept::Kept;
use crate::rows::push_u32;
use heap_memory::{Heap, NoMemory};

impl<'a> Kept<'a> {
    /// The size of these texts in bytes; `None` if it is larger than `most`.
    pub fn texts_len(&self, texts: &[u32], most: u64) -> Option<u64>
        requires { AreNumbers (length (kept_view self.now).texts) texts.now }
        ensures { MatchOption result (most < length (concat (texts_at (kept_view self.now) texts.now)))
            (λ len. (len ≡ length (concat (texts_at (kept_view self.now) texts.now))) × (len ≤ most)) }
    {
        let mut left = most;
        for text in texts {
            left = left.checked_sub(self.text_of(*text).len() as u64)?;
        }
        Some(most - left)
    }

    /// Adds the rows of these texts.
    pub fn push_text_rows(&self, bytes: &mut Vec<u8, Heap>, texts: &[u32]) -> Result<(), NoMemory>
        requires texts { AreNumbers (length (kept_view self.now).texts) texts.now }
        requires fits { length (concat (texts_at (kept_view self.now) texts.now)) < 2 ^ 32 }
        ensures { OnOk result (bytes.new.items
            ≡ bytes.old.items ++ text_rows 0 (texts_at (kept_view self.now) texts.now)) }
    {
        let mut place = 0;
        for text in texts {
            let len = self.text_of(*text).len() as u32;
            push_u32(bytes, place)?;
            push_u32(bytes, len)?;
            place += len;
        }
        Ok(())
    }

    /// Adds the bytes of these texts.
    pub fn push_texts(&self, bytes: &mut Vec<u8, Heap>, texts: &[u32]) -> Result<(), NoMemory>
        requires { AreNumbers (length (kept_view self.now).texts) texts.now }
        ensures { OnOk result (bytes.new.items
            ≡ bytes.old.items ++ concat (texts_at (kept_view self.now) texts.now)) }
    {
        for text in texts {
            bytes.extend_from_slice(self.text_of(*text))?;
        }
        Ok(())
    }
}
