//! The evidence by which a command answers frames: records, or indexes.

ghost use Rattle.std.specs.Prelude.{All, Bool, Contains};
ghost use Rattle.archive_core.specs.Key.{IsKey};
ghost use Rattle.text_input_files.specs.declared.frame.Frame.{Frame};
ghost use Rattle.command_common.specs.Inputs.{ReadsInputs, readers};
ghost use Rattle.command_queries.specs.Frames.{AskedOfFrames, frames_by_records};
ghost use Rattle.command_frames.specs.Frames.{frames_by_indexes};

use crate::frames::answer_by_indexes;
use crate::records::answer_by_records;
use archive_core::{Archive, SliceKey};
use byte_device::{Placed, Source};
use command_common::{CommandFault, Evidence, Records, Status};
use command_given_indexes::Indexes;
use heap_memory::Heap;
use text_input_files::Frame;

/// Archives by the inputs that a command reads to answer frames.
pub trait FrameEvidence: Evidence {
    // The question about frames, with their source frames if `lines`, and with slices if `slices`.
    ghost answered: { Self → Self → Bool → Bool → AskedOfFrames };

    /// The status, and the lines of the answers to frames, in order; if `lines`, with the source frames of each slice's
    /// answer; and if `slices`, with the lines of the slices that answer under the UUIDs of keys.
    ///
    /// # Errors
    ///
    /// `Input` for the first input that is refused; `OutOfMemory`.
    fn answer<A: Archive + Drop>(
        &mut self,
        heap: &Heap,
        lines: bool,
        slices: bool,
        keys: &[SliceKey],
        frames: &[Frame],
    ) -> Result<(Status, Vec<u8, Heap>), CommandFault>
        requires can { Self.can_find self.old }
        requires keyed { All IsKey keys.now }
        requires under { (frame : Frame) → Contains frames.now frame → Contains keys.now frame.key }
        ensures keeps { Self.keeps self.old self.new }
        ensures answers { let asked = answered self.old self.new lines slices in
            ReadsInputs result (λ told. asked.Tells keys.now frames.now told.0 told.1.items)
            (asked.Refuses frames.now) asked.Unfailed };

    // Evidence that is not asked keeps the same inputs unchanged, and no reader fails.
    ghost unread: { (evidence : Self) (lines slices : Bool)
        → Self.keeps evidence evidence
        × (answered evidence evidence lines slices).Untouched
        × (answered evidence evidence lines slices).Unfailed };
}

impl<'a, S: Source> FrameEvidence for Records<'a, S> {
    ghost use Rattle.std.proofs.Common.{refl};
    ghost use Rattle.command_queries.proofs.Unread.{records_unread};

    ghost answered = { λ old new lines slices. frames_by_records lines slices
        (readers S.left S.failures old.archives.now new.archives.now) };

    ghost unread = { λ records lines slices.
        let inputs = records_unread S.left S.failures lines slices records.archives.now in
        ((refl, refl), inputs.0, inputs.1) };

    fn answer<A: Archive + Drop>(
        &mut self,
        heap: &Heap,
        lines: bool,
        slices: bool,
        keys: &[SliceKey],
        frames: &[Frame],
    ) -> Result<(Status, Vec<u8, Heap>), CommandFault> {
        answer_by_records::<A, S>(heap, lines, slices, keys, frames, self.archives)
    }
}

impl<'a, I: Placed, P: Placed> FrameEvidence for Indexes<'a, I, P> {
    ghost use Rattle.std.proofs.Common.{refl};
    ghost use Rattle.command_common.proofs.Readers.{none_failed, none_touched};

    ghost answered = { λ old new lines slices. frames_by_indexes lines slices
        (readers I.whole I.failures old.indexes.now new.indexes.now)
        (readers P.whole P.failures old.archives.now new.archives.now) };

    ghost unread = { λ by lines slices. (
      (refl, refl, refl, refl),
      (none_touched I.whole I.failures by.indexes.now, none_touched P.whole P.failures by.archives.now),
      (none_failed I.whole I.failures by.indexes.now, none_failed P.whole P.failures by.archives.now),
    ) };

    fn answer<A: Archive + Drop>(
        &mut self,
        heap: &Heap,
        lines: bool,
        slices: bool,
        keys: &[SliceKey],
        frames: &[Frame],
    ) -> Result<(Status, Vec<u8, Heap>), CommandFault> {
        answer_by_indexes::<A, I, P>(
            heap,
            lines,
            slices,
            keys,
            frames,
            self.indexes,
            self.archives,
        )
    }
}
