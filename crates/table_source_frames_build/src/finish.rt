//! The table that a store writes.

ghost use Rattle.std.specs.Prelude.{◌≡◌, ◌<◌, ◌+◌, ◌++◌, ◌^◌, ◌↔◌, IfOk, IsTrue, OnOk, length, map};
ghost use Rattle.std.specs.List.{concat};
ghost use Rattle.std.specs.Option.{option_map};
ghost use Rattle.table_checked_pages.specs.Groups.{bytes_of, group_rows};
ghost use Rattle.table_source_frames.specs.LineTable.{no_lines};
ghost use Rattle.table_source_frames_build.specs.KeptViews.{kept_view};
ghost use Rattle.table_source_frames_build.specs.Lines.{IsWritten};
ghost use Rattle.table_source_frames_build.specs.PartBytes.{AreCounts, HaveNumbers, groups_by, texts_at};
ghost use Rattle.table_source_frames_build.specs.StepViews.{HaveLocations, step_of};
ghost use Rattle.table_source_frames_build.specs.WholeText.{IsTextIfFits, head_of, text_by};

use crate::changes::changed_steps;
use crate::kept::Kept;
use crate::parts::Parts;
use crate::rows::push_u64;
use crate::step::Step;
use crate::steps::StepRows;
use crate::store::LineStore;
use heap_memory::{Heap, NoMemory};
use table_source_frames::HEAD_LEN;

/// The head of a table without lines.
#[tactic(auto, unfolding(table_source_frames::specs::LineTable::no_lines))]
fn no_lines(heap: Heap) -> Result<Vec<u8, Heap>, NoMemory>
    ensures { IfOk result (λ bytes. bytes.items ≡ no_lines) }
{
    let mut bytes = Vec::new(heap);
    bytes.extend_from_slice(&[0; HEAD_LEN])?;
    Ok(bytes)
}

impl Parts {
    /// Whether the number of each text fits into four bytes.
    fn has_numbers(&self) -> bool
        ensures { IsTrue result ↔ HaveNumbers self.now }
    {
        u64::from(self.texts.before) + (self.texts.uses.order().len() as u64) <= u64::from(u32::MAX)
    }

    /// Adds the head of a table with so many steps, of so many bytes; `len` is the size of its texts in bytes.
    fn push_head(
        &self,
        text: &mut Vec<u8, Heap>,
        steps: u64,
        step_bytes: u64,
        len: u64,
    ) -> Result<(), NoMemory>
        ensures { OnOk result (text.new.items ≡ text.old.items ++ head_of steps step_bytes
            (length self.now.scopes.order.items) (length self.now.files.order.items)
            (length self.now.texts.uses.order.items) len) }
    {
        push_u64(text, 1)?;
        push_u64(text, steps)?;
        push_u64(text, step_bytes)?;
        push_u64(text, self.scopes.order().len() as u64)?;
        push_u64(text, self.files.order().len() as u64)?;
        push_u64(text, self.texts.uses.order().len() as u64)?;
        push_u64(text, len)
    }
}

impl<'a> Kept<'a> {
    /// The table of these steps, in groups, with these parts; `len` is the size of its texts in bytes.
    fn table_text(
        &self,
        heap: Heap,
        steps: &[Step],
        parts: &Parts,
        rows: &StepRows,
        len: u64,
    ) -> Result<Vec<u8, Heap>, NoMemory>
        requires counts { AreCounts (kept_view self.now) parts.now }
        requires texts { HaveNumbers parts.now }
        requires groups { rows.now.groups.items
            ≡ group_rows 0 (groups_by (kept_view self.now) parts.now.scopes.order.items steps.now) }
        requires bytes { rows.now.bytes.items
            ≡ bytes_of (groups_by (kept_view self.now) parts.now.scopes.order.items steps.now) }
        requires len { len ≡ length (concat (texts_at (kept_view self.now) parts.now.texts.uses.order.items)) }
        requires fits { len < 2 ^ 32 }
        ensures { IfOk result (λ text. text.items ≡ text_by (kept_view self.now) steps.now parts.now) }
    {
        let mut text = Vec::new(heap);
        parts.push_head(&mut text, steps.len() as u64, rows.bytes.len() as u64, len)?;
        text.extend_from_slice(&rows.groups)?;
        text.extend_from_slice(&rows.bytes)?;
        self.push_scope_rows(&mut text, parts, parts.scopes.order())?;
        self.push_files(&mut text, parts, parts.files.order())?;
        self.push_text_rows(&mut text, parts.texts.uses.order())?;
        self.push_texts(&mut text, parts.texts.uses.order())?;
        Ok(text)
    }

    /// The table of these steps, in a slice with these strings; `None` if it has more than `room` bytes, or if one of
    /// its numbers does not fit into four bytes.
    fn table_within(
        &self,
        heap: Heap,
        strings: &'a [u8],
        steps: &[Step],
        room: u64,
    ) -> Result<Option<Vec<u8, Heap>>, NoMemory>
        requires few { length strings.now < 2 ^ 32 }
        requires steps { HaveLocations (kept_view self.now) steps.now }
        ensures { IfOk result (λ text. IsTextIfFits room strings.now (map (step_of (kept_view self.now)) steps.now)
            (option_map (λ t. t.items) text)) }
    {
        if steps.len() as u64 > u64::from(u32::MAX) {
            return Ok(None);
        }
        let parts = self.parts(heap.share(), strings, steps)?;
        if !parts.has_numbers() {
            return Ok(None);
        }
        let most = room.min(u64::from(u32::MAX));
        let Some(len) = self.texts_len(parts.texts.uses.order(), most) else {
            return Ok(None);
        };
        let rows = self.step_rows(heap.share(), &parts, steps)?;
        if rows.bytes.len() as u64 > u64::from(u32::MAX) {
            return Ok(None);
        }
        let text = self.table_text(heap, steps, &parts, &rows, len)?;
        if text.len() as u64 > room {
            return Ok(None);
        }
        Ok(Some(text))
    }
}

impl<'a> LineStore<'a> {
    /// The table of the fewest steps that state the added frames, in a slice with these strings, if it fits into `room`
    /// bytes; else the head of a table without lines. The time is that of a sort of the addresses and of two searches
    /// for each string; the memory is that of the table, of its steps a second time, of 12 bytes for each text, and of
    /// 8 for each file and scope.
    pub fn finish(self, heap: Heap, strings: &'a [u8], room: u64) -> Result<Vec<u8, Heap>, NoMemory>
        requires { length strings.now < 2 ^ 32 }
        ensures { IfOk result (λ bytes. IsWritten room strings.now self.entry.taken bytes.items) }
    {
        let LineStore { kept, mut steps } = self;
        steps.sort_unstable_by_key(|step| step.start);
        let changed = changed_steps(heap.share(), &steps)?;
        match kept.table_within(heap.share(), strings, &changed, room)? {
            Some(bytes) => Ok(bytes),
            None => no_lines(heap),
        }
    }
}
