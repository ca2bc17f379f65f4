//! The two parts of a list of operations: its admissions, and after them its retirements.
ghost use Rattle.std.specs.Prelude.{◌≡◌, [], IfOk, OnOk};
ghost use Rattle.std.specs.FinSet as set;
ghost use Rattle.archive_core.specs.Content.{IsMade, Operations};
ghost use Rattle.archive_index.specs.InnerTaking.{IsPut, IsParted};
ghost use Rattle.archive_core.specs.declared.operations.Operation.TheVariants.{Admit, Retire};

use archive_core::{Digest, Operation, Retirements, Slice, SliceKey, retirement, retirement_bytes};
use heap_memory::{Heap, NoMemory};

// The admissions of a list and its retirements, without those that are never new at their position: a slice after its
// retirement, and a repeated retirement.
#[derive(Drop)]
pub(crate) struct Parts {
    pub(crate) admissions: Vec<Operation, Heap>,
    pub(crate) retirements: Vec<Operation, Heap>,
}

impl Parts {
    // Creates empty parts.
    fn none(heap: &Heap) -> Parts
        ensures admissions { result.admissions.items ≡ [] }
        ensures retirements { result.retirements.items ≡ [] }
    {
        Parts {
            admissions: Vec::new(heap.share()),
            retirements: Vec::new(heap.share()),
        }
    }

    // Appends an admission, unless one of the retirements before it covers it.
    fn admit(&mut self, seen: &Retirements, mut slice: Slice) -> Result<(), NoMemory>
        ensures { OnOk result (IsPut (Admit slice)
            self.old.admissions.items self.old.retirements.items (set.from_list seen.now)
            self.new.admissions.items self.new.retirements.items (set.from_list seen.now)) }
    {
        let _bytes = slice.bytes();
        let mut borrowed = slice.lend();
        let covered = seen.covers(&mut borrowed);
        let facts = borrowed.facts();
        if covered {
            return Ok(());
        }
        slice.keep(facts);
        self.admissions.push(Operation::Admit(slice))?;
        Ok(())
    }

    // Appends a retirement, if it is the first with its key and digest.
    fn retire(
        &mut self,
        seen: &mut Retirements,
        key: SliceKey,
        digest: Digest,
    ) -> Result<(), NoMemory>
        ensures { OnOk result (IsPut (Retire key digest)
            self.old.admissions.items self.old.retirements.items (set.from_list seen.old)
            self.new.admissions.items self.new.retirements.items (set.from_list seen.new)) }
    {
        let first = seen.keep(retirement_bytes(&key, &digest))?;
        if !first {
            return Ok(());
        }
        self.retirements.push(retirement(key, digest))?;
        Ok(())
    }

    // Adds an operation to its part.
    fn put(&mut self, seen: &mut Retirements, operation: Operation) -> Result<(), NoMemory>
        ensures { OnOk result (IsPut operation
            self.old.admissions.items self.old.retirements.items (set.from_list seen.old)
            self.new.admissions.items self.new.retirements.items (set.from_list seen.new)) }
    {
        match operation {
            Operation::Admit(slice) => self.admit(seen, slice),
            Operation::Retire(key, digest) => self.retire(seen, key, digest),
        }
    }
}

// The two parts of a list of operations.
pub(crate) fn by_kind(operations: Vec<Operation, Heap>) -> Result<Parts, NoMemory>
    ensures { IfOk result (λ parts. (old : Operations) → IsMade old
        → IsParted old operations.items parts.admissions.items parts.retirements.items) }
{
    let mut parts = Parts::none(operations.allocator());
    let mut seen = Retirements::none(operations.allocator());
    'operations: for operation in operations {
        parts.put(&mut seen, operation)?;
    }
    Ok(parts)
}
