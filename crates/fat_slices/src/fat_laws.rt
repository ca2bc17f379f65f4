//! Laws about the definitions, for every list of bytes. Each law is the contract of a function that does nothing.

ghost use Rattle.std.specs.Prelude.{◌≡◌, ◌<◌, ◌⊎◌, ℕ, List, Some, length, slice_get};
ghost use Rattle.fat_slices.specs.FatFault.{IsFatFault, IsUniversal};
ghost use Rattle.fat_slices.specs.Layout.{nfat_arch, arch_at};
ghost use Rattle.fat_slices.specs.Slices.{slice_part, slices};
ghost use Rattle.fat_slices.specs.declared.fat_fault.FatFault.{FatFault};

/// Bytes are a universal file or have a fault, never both and never two faults.
pub fn one_fault()
    ensures some { (file : List ℕ) → IsUniversal file ⊎ ((f : FatFault) × IsFatFault file f) }
    ensures one { (file : List ℕ) (f g : FatFault) → IsFatFault file f → IsFatFault file g → f ≡ g }
    ensures none { (file : List ℕ) (f : FatFault) → IsUniversal file → IsFatFault file f → ⊥ }
{}

/// The number of slices is that in the header, each is the part in the entry at its index, and in a universal file it
/// is whole.
pub fn slice_places()
    ensures number { (file : List ℕ) → length (slices file) ≡ nfat_arch file }
    ensures places { (file : List ℕ) (i : ℕ) → i < nfat_arch file →
        slice_get (slices file) i ≡ Some (slice_part file (arch_at file i)) }
    ensures whole { (file : List ℕ) (i : ℕ) → IsUniversal file → i < nfat_arch file →
        length (slice_part file (arch_at file i)) ≡ (arch_at file i).size }
{}
