//! Tests the entries' parts against the file's end and against the largest size of a slice.

ghost use Rattle.std.specs.Prelude.{MatchOption};
ghost use Rattle.fat_slices.specs.Layout.{nfat_arch};
ghost use Rattle.fat_slices.specs.InnerTable.{HasTable, HasNone, IsFirst};
ghost use Rattle.fat_slices.specs.FatFault.{IsOutside, IsTooLarge};

use crate::fat_arch::arch_at;
use crate::fat_header::nfat_arch;

/// The index of the first entry whose part ends after the file's end. An end may be above 2^64.
pub(crate) fn first_outside(file: &[u8]) -> Option<u32>
    requires { HasTable file.now }
    ensures { MatchOption result (HasNone (IsOutside file.now) (nfat_arch file.now))
        (λ index. IsFirst (IsOutside file.now) (nfat_arch file.now) index) }
{
    for index in 0..nfat_arch(file) {
        let arch = arch_at(file, index);
        if arch.offset as u128 + arch.size as u128 > file.len() as u128 {
            return Some(index);
        }
    }
    None
}

/// The index of the first entry whose part has more than 4,294,967,295 bytes.
pub(crate) fn first_too_large(file: &[u8]) -> Option<u32>
    requires { HasTable file.now }
    ensures { MatchOption result (HasNone (IsTooLarge file.now) (nfat_arch file.now))
        (λ index. IsFirst (IsTooLarge file.now) (nfat_arch file.now) index) }
{
    for index in 0..nfat_arch(file) {
        if arch_at(file, index).size > u32::MAX as u64 {
            return Some(index);
        }
    }
    None
}
