//! Admits the slices of a file to an archive.
ghost use Rattle.std.specs.Prelude.{◌≡◌, [], ◌∷◌, ℕ, List, IfOk, OnOk, OnErr, filter, if◌then◌else◌};
ghost use Rattle.archive_image_admission.specs.Accepted.{IsAcceptedAs};
ghost use Rattle.archive_image_admission.specs.InnerTaking.{file_of};
ghost use Rattle.archive_image_admission.specs.File.{is_admissible, slice_in, admissible, parts};
ghost use Rattle.archive_image_admission.specs.Take.{admitted, taken_of, taken_rows, HoldsFirstParts};

use crate::Taken;
use crate::checking::AcceptedFile;
use archive_core::{Archive, Digest, Operation, Slice, SliceKey};
use heap_memory::{Heap, NoMemory};

/// The result of a slice, by whether its admission changed the archive.
fn taken_if(changed: bool, key: SliceKey, digest: Digest) -> Taken
    ensures { result ≡ (if changed then Taken.Added key digest else Taken.Known key digest) }
{
    if changed {
        Taken::Added(key, digest)
    } else {
        Taken::Known(key, digest)
    }
}

fn take_slice<A: Archive>(archive: &mut A, mut slice: Slice) -> Result<Taken, NoMemory>
    ensures content { OnOk result (A.content archive.new ≡ admitted (A.content archive.old) (slice ∷ [])) }
    ensures row { IfOk result (λ row. row ≡ taken_of (A.content archive.old) slice) }
    ensures refused { OnErr result (A.content archive.new ≡ A.content archive.old) }
{
    let key = slice.key();
    slice.keep_digest();
    let digest = slice.digest();
    let changed = archive.take(Operation::Admit(slice))?;
    Ok(taken_if(changed, key, digest))
}

/// Admits a part of a file, if it is a slice, and returns its result. Fails only if memory runs out.
fn take_part<A: Archive>(archive: &mut A, slice: Option<Slice>) -> Result<Taken, NoMemory>
    ensures content { OnOk result ((part : List ℕ) → slice ≡ slice_in part
        → A.content archive.new ≡ admitted (A.content archive.old) (filter is_admissible (part ∷ []))) }
    ensures row { IfOk result (λ row. (part : List ℕ) → slice ≡ slice_in part
        → row ∷ [] ≡ taken_rows (A.content archive.old) (part ∷ [])) }
    ensures refused { OnErr result (A.content archive.new ≡ A.content archive.old) }
{
    match slice {
        Some(slice) => take_slice(archive, slice),
        None => Ok(Taken::Skipped),
    }
}

/// Admits the slices of an accepted file, in their order, each copied when it is next, and returns a row for each part,
/// in the order of the file. If memory runs out, the first of the slices may have been admitted; `laws::taking_resumed`
/// describes the result of a repeated call.
pub fn take_accepted<A: Archive>(
    archive: &mut A,
    heap: Heap,
    accepted: &AcceptedFile<'_>,
) -> Result<Vec<Taken, Heap>, NoMemory>
    requires { IsAcceptedAs (file_of accepted.now) accepted.now }
    ensures content { OnOk result
        (A.content archive.new ≡ admitted (A.content archive.old) (admissible (file_of accepted.now))) }
    ensures rows { IfOk result (λ rows.
        rows.items ≡ taken_rows (A.content archive.old) (parts (file_of accepted.now))) }
    ensures stopped { OnErr result
        (HoldsFirstParts (file_of accepted.now) (A.content archive.old) (A.content archive.new)) }
{
    let mut rows = Vec::new(heap.share());
    'parts: for index in 0..accepted.part_count() {
        let slice = accepted.slice_at(heap.share(), index)?;
        let row = take_part(archive, slice)?;
        rows.push(row)?;
    }
    Ok(rows)
}
