//! The frames of an address from a line table.

ghost use Rattle.std.specs.Prelude.{◌≡◌, ◌<◌, ◌≤◌, ◌++◌, ◌∷◌, [], ℕ, List, Some, IfErr, IfOk, OnOk, length};
ghost use Rattle.table_checked_pages.specs.Pages.{AreStored};
ghost use Rattle.table_checked_pages.specs.Views.{ArePagesOf, KeepsPages, claim_view};
ghost use Rattle.table_checked_pages.specs.Reading.{ReadsStored};
ghost use Rattle.dwarf_source_frames.specs.AddressFrames.{AreFramesOf};
ghost use Rattle.dwarf_source_frames.specs.Frames.{FrameRecord};
ghost use Rattle.table_source_frames.specs.FrameViews.{owned_frame_view, owned_frames};
ghost use Rattle.table_source_frames.specs.Inner.{HasPosition, IsFrameIn, IsScope, IsScopeIn, IsScopeNumber};
ghost use Rattle.table_source_frames.specs.LineText.{parts_of, scope_of};
ghost use Rattle.table_source_frames.specs.OfBytes.{AreFramesOfStep, AreStoredFrames, IsTrueOfBytes};
ghost use Rattle.table_source_frames.specs.Opened.{IsOpened};
ghost use Rattle.table_source_frames.specs.Steps.{AreFrameSteps, StepRecord};

use crate::frame::OwnedFrame;
use crate::laws::frames_by_step;
use crate::row::{Position, SCOPE_LEN, Scope, index_of};
use crate::table::LineTable;
use byte_device::Placed;
use heap_memory::Heap;
use table_checked_pages::{CheckFault, Pages, u32_be_at};

/// The largest number of frames of an address.
const MOST_FRAMES: usize = 256;

/// Adds a frame. The error is `OutOfMemory`.
fn push(frames: &mut Vec<OwnedFrame, Heap>, frame: OwnedFrame) -> Result<(), CheckFault>
    ensures pushed { OnOk result (frames.new.items ≡ frames.old.items ++ frame ∷ []) }
    ensures fault { IfErr result (λ fault. fault ≡ CheckFault.OutOfMemory) }
{
    match frames.push(frame) {
        Ok(()) => Ok(()),
        Err(_) => Err(CheckFault::OutOfMemory),
    }
}

impl LineTable {
    /// The scope with a number.
    fn scope<P: Placed>(
        &self,
        device: &mut P,
        pages: &mut Pages,
        number: u32,
    ) -> Result<Scope, CheckFault>
        ensures claim { pages.new.claim ≡ pages.old.claim }
        ensures keeps { KeepsPages P.whole device.old pages.old pages.new }
        ensures read { ReadsStored P.whole P.failures device.old device.new result
            (λ text row. (all strings : List ℕ) (steps : List StepRecord) (frame : FrameRecord)
            (callers : List FrameRecord) → IsOpened self.now pages.old text all strings steps
            → IsScopeNumber (parts_of strings steps) number (scope_of (frame ∷ callers))
            → IsScope (parts_of strings steps) row frame callers × (row.caller.scope < number))
            (λ text. (all strings : List ℕ) (steps : List StepRecord) (frame : FrameRecord)
            (callers : List FrameRecord) → AreStored text (claim_view pages.old.claim) all
            → IsOpened self.now pages.old text all strings steps
            → IsScopeNumber (parts_of strings steps) number (scope_of (frame ∷ callers)) → ⊥) }
        ensures bytes { IfOk result (λ row. IsTrueOfBytes P.whole device.old pages.old
            (λ all. IsScopeIn self.now all number row)) }
    {
        let Some(index) = index_of(number, self.scopes) else {
            return Err(CheckFault::Changed);
        };
        let mut bytes = [0; SCOPE_LEN];
        let offset = self.first_scope() + SCOPE_LEN as u64 * index;
        pages.read(device, offset, &mut bytes)?;
        let caller = Position {
            scope: u32_be_at(&bytes, 16),
            line: u32_be_at(&bytes, 8),
            column: u32_be_at(&bytes, 12),
        };
        Ok(Scope {
            name: u32_be_at(&bytes, 0),
            file: u32_be_at(&bytes, 4),
            caller,
        })
    }

    /// The frame of a scope, with a line and a column.
    fn frame<P: Placed>(
        &self,
        heap: Heap,
        device: &mut P,
        pages: &mut Pages,
        row: Scope,
        line: u32,
        column: u32,
    ) -> Result<OwnedFrame, CheckFault>
        ensures claim { pages.new.claim ≡ pages.old.claim }
        ensures keeps { KeepsPages P.whole device.old pages.old pages.new }
        ensures read { ReadsStored P.whole P.failures device.old device.new result
            (λ text frame. (all strings : List ℕ) (steps : List StepRecord) (told : FrameRecord)
            (callers : List FrameRecord) → IsOpened self.now pages.old text all strings steps
            → IsScope (parts_of strings steps) row told callers → line ≡ told.line → column ≡ told.column
            → owned_frame_view frame ≡ told)
            (λ text. (all strings : List ℕ) (steps : List StepRecord) (told : FrameRecord)
            (callers : List FrameRecord) → AreStored text (claim_view pages.old.claim) all
            → IsOpened self.now pages.old text all strings steps
            → IsScope (parts_of strings steps) row told callers → ⊥) }
        ensures bytes { IfOk result (λ frame. IsTrueOfBytes P.whole device.old pages.old
            (λ all. IsFrameIn self.now all row line column (owned_frame_view frame))) }
    {
        let name = self.maybe_text(heap.share(), device, pages, row.name)?;
        let path = self.maybe_path(heap, device, pages, row.file)?;
        Ok(OwnedFrame {
            name,
            path,
            line,
            column,
        })
    }

    /// The frames of a position, whose innermost frame has its line and column: those of its scope and of the scope's
    /// callers, up to the outermost one. The number of each caller is smaller.
    fn frames_from<P: Placed>(
        &self,
        heap: Heap,
        device: &mut P,
        pages: &mut Pages,
        from: Position,
    ) -> Result<Vec<OwnedFrame, Heap>, CheckFault>
        ensures claim { pages.new.claim ≡ pages.old.claim }
        ensures keeps { KeepsPages P.whole device.old pages.old pages.new }
        ensures read { ReadsStored P.whole P.failures device.old device.new result
            (λ text frames. (all strings : List ℕ) (steps : List StepRecord) (chain : List FrameRecord)
            → IsOpened self.now pages.old text all strings steps → HasPosition (parts_of strings steps) from chain
            → length chain ≤ 256 → owned_frames frames.items ≡ chain)
            (λ text. (all strings : List ℕ) (steps : List StepRecord) (chain : List FrameRecord)
            → AreStored text (claim_view pages.old.claim) all → IsOpened self.now pages.old text all strings steps
            → HasPosition (parts_of strings steps) from chain → length chain ≤ 256 → ⊥) }
        ensures bytes { IfOk result (λ frames. IsTrueOfBytes P.whole device.old pages.old
            (λ all. AreStoredFrames self.now all from.scope from.line from.column (owned_frames frames.items))) }
    {
        let mut frames = Vec::new(heap.share());
        let mut position = from;
        'callers: while position.scope != 0 {
            if frames.len() == MOST_FRAMES {
                return Err(CheckFault::Changed);
            }
            let row = self.scope(device, pages, position.scope)?;
            if row.caller.scope >= position.scope {
                return Err(CheckFault::Changed);
            }
            let frame = self.frame(
                heap.share(),
                device,
                pages,
                row,
                position.line,
                position.column,
            )?;
            push(&mut frames, frame)?;
            position = row.caller;
        }
        Ok(frames)
    }

    /// The frames of an address of the file, the innermost first: one binary search in the groups of steps, one group,
    /// and one scope for each frame. The errors are those of [`CheckFault`].
    pub fn frames_at<P: Placed>(
        &self,
        heap: Heap,
        device: &mut P,
        pages: &mut Pages,
        address: u64,
    ) -> Result<Vec<OwnedFrame, Heap>, CheckFault>
        ensures claim { pages.new.claim ≡ pages.old.claim }
        ensures keeps { KeepsPages P.whole device.old pages.old pages.new }
        ensures read { ReadsStored P.whole P.failures device.old device.new result
            (λ text frames. ((image all strings : List ℕ) (steps : List StepRecord) → AreFrameSteps image steps
            → IsOpened self.now pages.old text all strings steps
            → AreFramesOf image address (owned_frames frames.items))
            × ((all : List ℕ) → ArePagesOf pages.old text all
            → AreFramesOfStep self.now all (owned_frames frames.items)))
            (λ text. (image all strings : List ℕ) (steps : List StepRecord)
            → AreStored text (claim_view pages.old.claim) all → AreFrameSteps image steps
            → IsOpened self.now pages.old text all strings steps → ⊥) }
    {
        frames_by_step();
        let position = self.position_for(device, pages, address)?;
        let frames = self.frames_from(heap, device, pages, position)?;
        Ok(frames)
    }
}
