//! Checks a file before any of it is admitted.
ghost use Rattle.std.specs.Prelude.{◌≡◌, ◌≢◌, true, IfOk, IfErr, OnOk, is_some};
ghost use Rattle.fat_slices.specs.Kind.{kind_of, is_fat};
ghost use Rattle.archive_core.specs.Valid.{IsSliceFault};
ghost use Rattle.archive_core.specs.declared.faults.SliceFault.{SliceFault};
ghost use Rattle.archive_image_admission.specs.File.{IsAcceptedFile, IsTakeFault, is_admissible};
ghost use Rattle.archive_image_admission.specs.Accepted.{IsAcceptedAs, AreFactsOf};

use crate::TakeFault;
use archive_core::laws::one_slice_fault;
use archive_core::{CheckedSlice, Slice, SliceFacts};
use fat_slices::{FileKind, MOST_ARCHES, Universal, kind};

/// An accepted file, with the results of its check. It borrows the file's bytes.
#[derive(Drop)]
pub enum AcceptedFile<'a> {
    /// A thin file: its only part is the slice.
    Thin(CheckedSlice<'a>),
    /// A universal file, and for each part, at its index, the facts from its check; none for a part that does not begin
    /// like an image.
    Universal(Universal<'a>, [Option<SliceFacts>; MOST_ARCHES]),
}

pub(crate) fn begins_as_image(part: &[u8]) -> bool
    ensures { result ≡ is_admissible part.now }
{
    matches!(kind(part), FileKind::Thin)
}

/// Checks the part at an index; if it begins like an image, it must be a slice.
fn check_part(index: u64, part: &[u8]) -> Result<Option<SliceFacts>, TakeFault>
    ensures begins { IfOk result (λ found. is_some found ≡ is_admissible part.now) }
    ensures found { IfOk result (λ found. AreFactsOf part.now found) }
    ensures refused { IfErr result (λ fault. (why : SliceFault) × (fault ≡ TakeFault.Slice index why)
        × (is_admissible part.now ≡ true) × IsSliceFault part.now why) }
{
    if !begins_as_image(part) {
        return Ok(None);
    }
    match Slice::check(part) {
        Ok(slice) => Ok(Some(slice.facts())),
        Err(fault) => Err(TakeFault::Slice(index, fault)),
    }
}

/// Checks a thin file, which is its only part.
fn check_thin(file: &[u8]) -> Result<CheckedSlice<'_>, TakeFault>
    requires { kind_of file.now ≡ FileKind.Thin }
    ensures accepted { OnOk result (IsAcceptedFile file.now) }
    ensures slice { IfOk result (λ slice. slice ≡ file.now) }
    ensures refused { IfErr result (IsTakeFault file.now) }
    ensures no_memory { IfErr result (λ fault. fault ≢ TakeFault.OutOfMemory) }
{
    one_slice_fault();
    match Slice::check(file) {
        Ok(slice) => Ok(slice),
        Err(fault) => Err(TakeFault::Slice(0, fault)),
    }
}

fn check_universal(file: &[u8]) -> Result<AcceptedFile<'_>, TakeFault>
    requires { is_fat (kind_of file.now) ≡ true }
    ensures accepted { OnOk result (IsAcceptedFile file.now) }
    ensures found { IfOk result (λ accepted. IsAcceptedAs file.now accepted) }
    ensures refused { IfErr result (IsTakeFault file.now) }
    ensures no_memory { IfErr result (λ fault. fault ≢ TakeFault.OutOfMemory) }
{
    one_slice_fault();
    let universal = Universal::read(file)?;
    let mut found = [None; MOST_ARCHES];
    let mut has_slice = false;
    'parts: for index in 0..universal.len() {
        let facts = check_part(index as u64, universal.slice(index))?;
        has_slice |= facts.is_some();
        found[index as usize] = facts;
    }
    if has_slice {
        Ok(AcceptedFile::Universal(universal, found))
    } else {
        Err(TakeFault::NothingToAdmit)
    }
}

/// Checks whether a file is accepted, and returns the accepted file, or else its fault, which is never `OutOfMemory`.
/// Allocates no memory.
pub fn check_file(file: &[u8]) -> Result<AcceptedFile<'_>, TakeFault>
    ensures accepted { OnOk result (IsAcceptedFile file.now) }
    ensures found { IfOk result (λ accepted. IsAcceptedAs file.now accepted) }
    ensures refused { IfErr result (IsTakeFault file.now) }
    ensures no_memory { IfErr result (λ fault. fault ≢ TakeFault.OutOfMemory) }
{
    match kind(file) {
        FileKind::Other => Err(TakeFault::Unrecognised),
        FileKind::Thin => Ok(AcceptedFile::Thin(check_thin(file)?)),
        FileKind::Universal | FileKind::Universal64 => check_universal(file),
    }
}
