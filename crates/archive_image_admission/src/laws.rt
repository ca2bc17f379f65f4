//! Laws about files, and about the results of admitting them.
//!
//! Each law is the contract of a function that only calls laws of the crates below. Its clauses are about the
//! definitions alone: a caller that needs a law calls its function.
ghost use Rattle.std.specs.Prelude.{◌≡◌, ◌≢◌, ◌⊎◌, ◌↔◌, ℕ, Contains, List, Some, true};
ghost use Rattle.std.specs.Prelude.{false, length, take, filter, slice_get};
ghost use Rattle.std.specs.FinSet as set;
ghost use Rattle.sha2.specs.Sha256.{sha256};
ghost use Rattle.archive_core.specs.Content.{Operations, IsMade, IsContent, IsBelow};
ghost use Rattle.archive_core.specs.Record.{admission_record, retirement_record};
ghost use Rattle.archive_core.specs.Valid.{IsValid, key_of};
ghost use Rattle.archive_image_admission.specs.File.{IsAcceptedFile, IsTakeFault, is_admissible, admissible, parts};
ghost use Rattle.archive_image_admission.specs.Take.{admitted, taken_of, taken_rows, HoldsFirstParts};
ghost use Rattle.archive_image_admission.specs.declared.fault.TakeFault.{TakeFault};
ghost use Rattle.archive_image_admission.specs.declared.fault.TakeFault.TheVariants.{OutOfMemory};
ghost use Rattle.archive_image_admission.specs.declared.taken.Taken.TheVariants.{Known, Skipped};

use archive_core::laws::one_slice_fault;
use fat_slices::fat_laws::one_fault as one_fat_fault;

/// A file is accepted or has a fault other than `OutOfMemory`, never both and never two faults.
pub fn one_take_fault()
    ensures some { (file : List ℕ) → IsAcceptedFile file ⊎ ((f : TakeFault) × (f ≢ OutOfMemory) × IsTakeFault file f) }
    ensures one { (file : List ℕ) (f g : TakeFault) → IsTakeFault file f → IsTakeFault file g → f ≡ g }
    ensures none { (file : List ℕ) (f : TakeFault) → IsAcceptedFile file → IsTakeFault file f → f ≡ OutOfMemory }
{
    one_slice_fault();
    one_fat_fault();
}

/// There is one row for each part, in the order of the file: the row of an admissible part is its result on the old
/// content with the admissible parts before it. A slice that is present is known, and so is one that a retirement
/// covers.
pub fn rows_in_order()
    ensures number { (o : Operations) (file : List (List ℕ)) → length (taken_rows o file) ≡ length file }
    ensures skipped { (o : Operations) (file : List (List ℕ)) (i : ℕ) (part : List ℕ)
        → slice_get file i ≡ Some part
        → is_admissible part ≡ false
        → slice_get (taken_rows o file) i ≡ Some Skipped }
    ensures taken { (o : Operations) (file : List (List ℕ)) (i : ℕ) (part : List ℕ)
        → slice_get file i ≡ Some part
        → is_admissible part ≡ true
        → slice_get (taken_rows o file) i ≡ Some (taken_of (admitted o (filter is_admissible (take i file))) part) }
    ensures there { (o : Operations) (part : List ℕ)
        → set.contains o (admission_record part) ≡ true
        → taken_of o part ≡ Known (key_of part) (record { 0 = sha256 part }) }
    ensures covered { (o : Operations) (part : List ℕ)
        → IsValid part
        → set.contains o (retirement_record (key_of part) (sha256 part)) ≡ true
        → taken_of o part ≡ Known (key_of part) (record { 0 = sha256 part }) }
{}

/// The content after images does not depend on their order, nor on repeats.
pub fn admitted_in_any_order()
    ensures { (o : Operations) (images others : List (List ℕ))
        → IsMade o
        → ((image : List ℕ) → Contains images image ↔ Contains others image)
        → admitted o images ≡ admitted o others }
{}

/// An admission of a file that stopped half way left a content between the old one and the result, and has the same
/// result if it is repeated.
pub fn taking_resumed()
    ensures above { (file : List ℕ) (o mid : Operations)
        → IsContent o
        → IsAcceptedFile file
        → HoldsFirstParts file o mid
        → IsBelow o mid }
    ensures below { (file : List ℕ) (o mid : Operations)
        → IsContent o
        → IsAcceptedFile file
        → HoldsFirstParts file o mid
        → IsBelow mid (admitted o (admissible file)) }
    ensures again { (file : List ℕ) (o mid : Operations)
        → IsMade o
        → HoldsFirstParts file o mid
        → admitted mid (admissible file) ≡ admitted o (admissible file) }
{}
