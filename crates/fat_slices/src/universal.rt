//! A universal file as a whole.

ghost use Rattle.std.specs.Prelude.{◌≡◌, ◌==◌, ◌^◌, ◌≤◌, ◌<◌, Some, IfOk, IfErr, length, slice_get};
ghost use Rattle.fat_slices.specs.FatFault.{IsFatFault, IsUniversal};
ghost use Rattle.fat_slices.specs.Slices.{slices};

use crate::bounds::{first_outside, first_too_large};
use crate::fat_arch::{arch_at, slice_part};
use crate::fat_fault::FatFault;
use crate::fat_header::{MOST_ARCHES, check_table, nfat_arch};
use std::marker::Model;

/// A universal file, which borrows its bytes. A contract sees it as these bytes.
#[derive(Drop)]
pub struct Universal<'a> {
    file: &'a [u8],
}

impl<'a> Model for Universal<'a> {
    ghost use Rattle.std.specs.Prelude.{ℕ, List};
    ghost use Rattle.fat_slices.specs.FatFault.{IsUniversal};

    ghost Value = { List ℕ };

    ghost view = { λ u. u.file.now };

    ghost invariant = { λ u. IsUniversal u.file.now };
}

impl<'a> Universal<'a> {
    /// Reads the header and the table of a universal file, or returns the first fault in the order of `FatFault`. A
    /// table may be empty. Slices may overlap, have any alignment and order, and have the same architecture. Bytes
    /// between them are not read, nor entries after the `nfat_arch` of the table.
    pub fn read(file: &'a [u8]) -> Result<Universal<'a>, FatFault>
        ensures faulty { IfErr result (λ fault. IsFatFault file.now fault) }
        ensures sound { IfOk result (λ _. IsUniversal file.now) }
        ensures bytes { IfOk result (λ universal. universal ≡ file.now) }
    {
        check_table(file)?;
        if let Some(index) = first_outside(file) {
            return Err(FatFault::SliceOutside(index));
        }
        if let Some(index) = first_too_large(file) {
            return Err(FatFault::TooLarge(index));
        }
        Ok(Universal { file })
    }

    /// The number of slices: `nfat_arch`.
    #[tactic(auto, using(crate::proofs::SlicePlaces::of_slices))]
    pub fn len(&self) -> u32
        ensures number { result ≡ length (slices self.now) }
        ensures few { result ≤ MOST_ARCHES }
    {
        nfat_arch(self.file)
    }

    /// Whether there is no slice.
    pub fn is_empty(&self) -> bool
        ensures { result ≡ (length (slices self.now) == 0) }
    {
        self.len() == 0
    }

    /// The slice of the entry at an index, counted from 0. It is any bytes, and may be empty.
    #[tactic(auto, using(crate::proofs::SlicePlaces::of_slices))]
    pub fn slice(&self, index: u32) -> &'a [u8]
        requires { index < length (slices self.now) }
        ensures part { slice_get (slices self.now) index ≡ Some result.now }
        ensures small { length result.now < 2 ^ 32 }
    {
        slice_part(self.file, arch_at(self.file, index))
    }
}
