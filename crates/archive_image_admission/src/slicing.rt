//! The slices of an accepted file, each with its own bytes.
ghost use Rattle.std.specs.Prelude.{◌≡◌, ◌<◌, ◌≤◌, ℕ, List, None, Some, map, length, slice_get, slice_index_or};
ghost use Rattle.std.specs.Prelude.{IfOk, IfErr, OnOk};
ghost use Rattle.fat_slices.specs.Kind.{kind_of};
ghost use Rattle.archive_image_admission.specs.Accepted.{IsAcceptedAs, AreFactsOf};
ghost use Rattle.archive_image_admission.specs.InnerTaking.{file_of};
ghost use Rattle.archive_image_admission.specs.File.{IsAcceptedFile, IsTakeFault, parts, slice_in};

use crate::TakeFault;
use crate::checking::{AcceptedFile, check_file};
use archive_core::{CheckedSlice, Slice, SliceFacts};
use fat_slices::{FileKind, MOST_ARCHES};
use heap_memory::{Heap, NoMemory};

/// The slice of a part, from the facts of its check. Its bytes are copied. Without facts the part is no slice. Fails
/// only if memory runs out.
fn slice_in(heap: Heap, part: &[u8], found: Option<SliceFacts>) -> Result<Option<Slice>, NoMemory>
    requires { AreFactsOf part.now found }
    ensures { IfOk result (λ slice. slice ≡ slice_in part.now) }
{
    match found {
        Some(facts) => {
            let slice = CheckedSlice::of_checked(part, facts).admit(heap)?;
            Ok(Some(slice))
        }
        None => Ok(None),
    }
}

/// The facts of the part at an index.
fn facts_at(found: &[Option<SliceFacts>; MOST_ARCHES], index: u32) -> Option<SliceFacts>
    requires { index < MOST_ARCHES }
    ensures { result ≡ slice_index_or found.now index None }
{
    found[index as usize]
}

impl<'a> AcceptedFile<'a> {
    /// The number of parts of the file.
    pub(crate) fn part_count(&self) -> u32
        requires { IsAcceptedAs (file_of self.now) self.now }
        ensures number { result ≡ length (parts (file_of self.now)) }
        ensures few { result ≤ MOST_ARCHES }
    {
        match self {
            AcceptedFile::Thin(_) => 1,
            AcceptedFile::Universal(universal, _) => universal.len(),
        }
    }

    /// The slice of the part at an index, or none. Its bytes are copied. Fails only if memory runs out.
    pub(crate) fn slice_at(&self, heap: Heap, index: u32) -> Result<Option<Slice>, NoMemory>
        requires accepted { IsAcceptedAs (file_of self.now) self.now }
        requires index { index < length (parts (file_of self.now)) }
        requires few { index < MOST_ARCHES }
        ensures { IfOk result (λ slice. (part : List ℕ)
            × (slice_get (parts (file_of self.now)) index ≡ Some part)
            × (slice ≡ slice_in part)) }
    {
        match self {
            AcceptedFile::Thin(slice) => {
                let slice = slice.admit(heap)?;
                Ok(Some(slice))
            }
            AcceptedFile::Universal(universal, found) => {
                slice_in(heap, universal.slice(index), facts_at(found, index))
            }
        }
    }
}

fn slice_alone(heap: Heap, slice: Slice) -> Result<Vec<Option<Slice>, Heap>, NoMemory>
    requires { kind_of slice ≡ FileKind.Thin }
    ensures { IfOk result (λ slices. slices.items ≡ map slice_in (parts slice)) }
{
    let mut slices = Vec::new(heap);
    slices.push(Some(slice))?;
    Ok(slices)
}

fn slices_of(heap: Heap, accepted: &AcceptedFile<'_>) -> Result<Vec<Option<Slice>, Heap>, NoMemory>
    requires { IsAcceptedAs (file_of accepted.now) accepted.now }
    ensures { IfOk result (λ slices. slices.items ≡ map slice_in (parts (file_of accepted.now))) }
{
    let mut slices = Vec::new(heap.share());
    'parts: for index in 0..accepted.part_count() {
        let slice = accepted.slice_at(heap.share(), index)?;
        slices.push(slice)?;
    }
    Ok(slices)
}

/// The slices of a file, one for each part that is one, in the order of the file.
///
/// All are checked, each once, before one is copied. The bytes of a thin file are moved, not copied. Memory comes from
/// the vector's own heap.
///
/// # Errors
///
/// Those of [`check_file`], and `OutOfMemory`.
pub fn slice_file(file: Vec<u8, Heap>) -> Result<Vec<Option<Slice>, Heap>, TakeFault>
    ensures accepted { OnOk result (IsAcceptedFile file.items) }
    ensures slices { IfOk result (λ slices. slices.items ≡ map slice_in (parts file.items)) }
    ensures refused { IfErr result (IsTakeFault file.items) }
{
    let accepted = check_file(&file)?;
    let heap = file.allocator().share();
    let slices = match accepted {
        AcceptedFile::Thin(slice) => {
            let facts = slice.facts();
            slice_alone(heap, Slice::of_checked(file, facts))?
        }
        universal => slices_of(heap, &universal)?,
    };
    Ok(slices)
}
