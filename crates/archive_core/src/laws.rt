//! Laws about the faults of a slice.
ghost use Rattle.std.specs.Prelude.{◌≡◌, ◌⊎◌, ℕ, List};
ghost use Rattle.archive_core.specs.Valid.{IsValid, IsSliceFault};
ghost use Rattle.archive_core.specs.declared.faults.SliceFault.{SliceFault};

use macho_image::laws::one_fault;
use macho_symbols::laws::one_symbol_fault;

/// Bytes are a slice or have a fault, never both and never two faults.
pub fn one_slice_fault()
    ensures some { (bytes : List ℕ) → IsValid bytes ⊎ ((f : SliceFault) × IsSliceFault bytes f) }
    ensures one { (bytes : List ℕ) (f g : SliceFault) → IsSliceFault bytes f → IsSliceFault bytes g → f ≡ g }
    ensures none { (bytes : List ℕ) (f : SliceFault) → IsValid bytes → IsSliceFault bytes f → ⊥ }
{
    one_fault();
    one_symbol_fault();
}
