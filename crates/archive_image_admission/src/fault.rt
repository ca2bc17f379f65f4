//! Why no slice of a file is admitted.

use archive_core::SliceFault;
use fat_slices::FatFault;
use std::alloc::{AllocError, AllocFailed};

/// Why no slice of a file is admitted.
///
/// The faults are tested in this order, and the third over all slices, so if several apply it is the first of them
/// here.
#[derive(Clone, Copy, Debug, PartialEq, Eq)]
pub enum TakeFault {
    /// The file begins with none of MH_MAGIC_64 (little-endian), FAT_MAGIC and FAT_MAGIC_64.
    Unrecognised,
    /// The file begins like a universal one and is none.
    Fat(FatFault),
    /// The slice at this index of the file, counted from 0, begins like a 64-bit little-endian image and is not one
    /// that an archive keeps. It is the first such slice. A thin file has only the slice 0.
    Slice(u64, SliceFault),
    /// No slice begins like a 64-bit little-endian image.
    NothingToAdmit,
    /// The file is accepted, and memory ran out.
    OutOfMemory,
}

impl From<FatFault> for TakeFault {
    ghost use Rattle.std.specs.Prelude.{◌≡◌};
    ghost use Rattle.archive_image_admission.specs.declared.fault.TakeFault.TheVariants.{Fat};

    ghost from_gives = { λ refused fault. fault ≡ Fat refused };

    fn from(refused: FatFault) -> TakeFault {
        TakeFault::Fat(refused)
    }
}

impl From<AllocError> for TakeFault {
    ghost use Rattle.std.specs.Prelude.{◌≡◌};
    ghost use Rattle.archive_image_admission.specs.declared.fault.TakeFault.TheVariants.{OutOfMemory};

    ghost from_gives = { λ _ fault. fault ≡ OutOfMemory };

    fn from(_refused: AllocError) -> TakeFault {
        TakeFault::OutOfMemory
    }
}

impl<T: Drop> From<AllocFailed<T>> for TakeFault {
    ghost use Rattle.std.specs.Prelude.{◌≡◌};
    ghost use Rattle.archive_image_admission.specs.declared.fault.TakeFault.TheVariants.{OutOfMemory};

    ghost from_gives = { λ _ fault. fault ≡ OutOfMemory };

    fn from(_refused: AllocFailed<T>) -> TakeFault {
        TakeFault::OutOfMemory
    }
}
