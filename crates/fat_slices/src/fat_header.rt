//! `fat_header`, at the start of a universal file, and the room for the table after it.

ghost use Rattle.std.specs.Prelude.{◌≡◌, ◌≤◌, IfOk, IfErr, length};
ghost use Rattle.fat_slices.specs.Layout.{nfat_arch};
ghost use Rattle.fat_slices.specs.InnerTable.{HasTable};
ghost use Rattle.fat_slices.specs.FatFault.{IsFatFault};

use crate::fat_arch::arch_offset;
use crate::fat_fault::FatFault;
use crate::file_kind::{is_fat, kind};
use crate::number::number32;

pub(crate) const FAT_HEADER_LEN: usize = 8;

/// The largest number of entries in a table.
pub const MOST_ARCHES: usize = 32;

/// `nfat_arch`.
pub(crate) fn nfat_arch(file: &[u8]) -> u32
    requires { 8 ≤ length file.now }
    ensures { result ≡ nfat_arch file.now }
{
    number32(file, 4)
}

/// Whether the bytes begin with a header and have room for the table after it.
pub(crate) fn check_table(file: &[u8]) -> Result<(), FatFault>
    ensures faulty { IfErr result (λ fault. IsFatFault file.now fault) }
    ensures sound { IfOk result (λ _. HasTable file.now) }
{
    let kind = kind(file);
    if !is_fat(kind) {
        return Err(FatFault::NotUniversal);
    }
    if file.len() < FAT_HEADER_LEN {
        return Err(FatFault::HeaderTruncated);
    }
    let count = nfat_arch(file);
    if count as usize > MOST_ARCHES {
        return Err(FatFault::TooManyArches(count));
    }
    if file.len() < arch_offset(kind, count) {
        return Err(FatFault::TableTruncated);
    }
    Ok(())
}
