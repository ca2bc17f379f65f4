//! The notes that a command adds: for slices that IN retires, and for a slice that IN does not have.
ghost use Rattle.std.specs.Prelude.{◌≡◌, ◌++◌, ◌∷◌, List, [], length, map, ℕ, OnOk, if◌then◌else◌};
ghost use Rattle.std.specs.List.{flat_map};
ghost use Rattle.archive_core.specs.Record.{record_bytes};
ghost use Rattle.command_archives.specs.InnerNotes.{note_of};
ghost use Rattle.command_common.specs.declared.notes.Note.TheVariants.{Missing};

use archive_core::{Digest, Operation, SliceKey};
use archive_merge::Arrival;
use command_common::Note;
use heap_memory::{Heap, NoMemory};

/// Adds the note of an operation, if it is the admission of a slice that IN retires.
fn note_operation(
    notes: &mut Vec<Note, Heap>,
    operation: &Operation,
    arrival: Arrival,
) -> Result<(), NoMemory>
    ensures { OnOk result (notes.new.items ≡ notes.old.items ++ note_of arrival operation.now) }
{
    match arrival {
        Arrival::New | Arrival::Had => Ok(()),
        Arrival::Retired => match operation {
            Operation::Admit(slice) => {
                notes.push(Note::Retired(slice.key(), slice.digest()))?;
                Ok(())
            }
            Operation::Retire(_, _) => Ok(()),
        },
    }
}

/// Adds a note for each slice that IN retires among these operations, in order, by the arrival of each in IN.
pub fn note_retired(
    notes: &mut Vec<Note, Heap>,
    operations: &[Operation],
    arrived: &[Arrival],
) -> Result<(), NoMemory>
    requires { length arrived.now ≡ length operations.now }
    ensures { OnOk result ((arrival : List ℕ → Arrival) → arrived.now ≡ map arrival (map record_bytes operations.now)
        → notes.new.items
        ≡ notes.old.items
        ++ flat_map (λ operation. note_of (arrival (record_bytes operation)) operation) operations.now) }
{
    'arrived: for (index, arrival) in arrived.iter().enumerate() {
        note_operation(notes, &operations[index], *arrival)?;
    }
    Ok(())
}

/// Adds a note for a slice to retire, unless IN had it.
pub fn note_missing(
    notes: &mut Vec<Note, Heap>,
    had: bool,
    key: SliceKey,
    digest: Digest,
) -> Result<(), NoMemory>
    ensures { OnOk result
        (notes.new.items ≡ notes.old.items ++ (if had then [] else Missing key digest ∷ [])) }
{
    if !had {
        notes.push(Note::Missing(key, digest))?;
    }
    Ok(())
}
