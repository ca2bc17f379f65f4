//! The evidence by which a command answers.

ghost use Rattle.std.specs.Prelude.{ℕ, List};
ghost use Rattle.archive_core.specs.Summary.{Entries};
ghost use Rattle.archive_core.specs.declared.find.FindRow.{FindRow as Row};
ghost use Rattle.command_common.specs.Asked.{Asked};
ghost use Rattle.command_common.specs.Inputs.{ReadsInputs};

use crate::faults::CommandFault;
use archive_core::{Archive, FindRow};
use archive_records::Summary;
use heap_memory::Heap;
use uuid::Uuid;

/// Archives by the inputs that a command reads: their records, or their indexes. A value borrows the inputs; a ghost
/// member over two values is about the inputs before and after a call.
pub trait Evidence {
    // There are as many inputs as a search needs.
    ghost can_find: { Self → Type 0 };

    // There is a first archive.
    ghost can_list: { Self → Type 0 };

    // Both borrow the same inputs, and the same number of them.
    ghost keeps: { Self → Self → Type 0 };

    // The rows under a UUID in the join of all archives.
    ghost found: { Self → Self → List ℕ → Asked (List Row) };

    // All rows of the first archive.
    ghost listed: { Self → Self → Asked (List Row) };

    // The summary of the first archive.
    ghost summarized: { Self → Self → Asked Entries };

    /// The rows under a UUID in the join of all archives.
    ///
    /// # Errors
    ///
    /// `Input` for the first input that is refused; `OutOfMemory`.
    fn find<A: Archive + Drop>(
        &mut self,
        heap: Heap,
        uuid: &Uuid,
    ) -> Result<Vec<FindRow, Heap>, CommandFault>
        requires { can_find self.old }
        ensures keeps { keeps self.old self.new }
        ensures finds { let asked = found self.old self.new uuid.now in
            ReadsInputs result (λ rows. asked.Has rows.items) asked.Refuses asked.Unfailed };

    /// All rows of the first archive.
    ///
    /// # Errors
    ///
    /// Those of `find`.
    fn list(&mut self, heap: Heap) -> Result<Vec<FindRow, Heap>, CommandFault>
        requires { can_list self.old }
        ensures keeps { keeps self.old self.new }
        ensures lists { let asked = listed self.old self.new in
            ReadsInputs result (λ rows. asked.Has rows.items) asked.Refuses asked.Unfailed };

    /// The summary of the first archive.
    ///
    /// # Errors
    ///
    /// Those of `find`.
    fn summarize(&mut self, heap: Heap) -> Result<Summary, CommandFault>
        requires { can_list self.old }
        ensures keeps { keeps self.old self.new }
        ensures summarizes { let asked = summarized self.old self.new in
            ReadsInputs result asked.Has asked.Refuses asked.Unfailed };
}
