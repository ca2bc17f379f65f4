//! The evidence by which a slice is chosen and sent.

ghost use Rattle.std.specs.Prelude.{Option};
ghost use Rattle.archive_core.specs.declared.keys.Digest.{Digest};
ghost use Rattle.archive_core.specs.declared.keys.SliceKey.{SliceKey};
ghost use Rattle.command_common.specs.Outputs.{Writer, writer};
ghost use Rattle.command_extract.specs.declared.choice.Chosen.{Chosen};
ghost use Rattle.command_extract.specs.Extract.{Extraction};
ghost use Rattle.command_extract.specs.Evidence.{Chooses, Sends};
ghost use Rattle.command_extract.specs.Wanted.{line_of};

use crate::choice::{Choice, Chosen};
use archive_core::{Digest, SliceKey};
use byte_device::Sink;
use command_common::{CommandFault, Evidence};
use heap_memory::Heap;

/// Evidence that has slices: the records of archives, which are held as an `A`, or their indexes.
pub trait SliceEvidence<A>: Evidence {
    /// Where a chosen slice is.
    type Place: Drop;

    // The command that writes the wanted slice.
    ghost extraction: { Self → Self → SliceKey → Option Digest → Writer → Extraction };

    // The slice was chosen between these two states of the evidence.
    ghost placed: { Self → Self → SliceKey → Option Digest → Chosen Self.Place → Type 0 };

    /// Reads the inputs, and chooses the one slice that answers under the key in the join of the archives, or a held
    /// one with the digest.
    ///
    /// # Errors
    ///
    /// `Input` for the first input that is refused; `OutOfMemory`.
    fn choose(
        &mut self,
        heap: Heap,
        key: &SliceKey,
        digest: &Option<Digest>,
    ) -> Result<Choice<Self::Place>, CommandFault>
        requires { Self.can_find self.old }
        ensures keeps { Self.keeps self.old self.new }
        ensures chooses { Chooses (extraction self.old self.new key.now digest.now)
            (placed self.old self.new key.now digest.now) result };

    /// Sends the bytes of the chosen slice to a draft, after they were found to have its SHA-256.
    ///
    /// # Errors
    ///
    /// `Input` for an archive that has other bytes by now; `Output` if the draft failed; `OutOfMemory`.
    fn send<W: Sink>(
        &mut self,
        heap: Heap,
        chosen: &Chosen<Self::Place>,
        draft: &mut W,
    ) -> Result<(), CommandFault>
        requires { (first : Self) × (key : SliceKey) × (digest : Option Digest)
            × placed first self.old key digest chosen.now }
        ensures keeps { (first : Self) → Self.keeps first self.old → Self.keeps first self.new }
        ensures sends { (first : Self) (key : SliceKey) (digest : Option Digest)
            → placed first self.old key digest chosen.now
            → Sends (extraction first self.new key digest) (line_of key chosen.now.digest chosen.now.size)
            chosen.now.size (writer W.held W.failures draft.old draft.new) result };
}
