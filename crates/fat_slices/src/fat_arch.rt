//! `fat_arch` and `fat_arch_64`: the entries of the table, one after another.

ghost use Rattle.std.specs.Prelude.{◌≡◌, ◌+◌, ◌*◌, ◌≤◌, ◌<◌, length};
ghost use Rattle.fat_slices.specs.Layout.{nfat_arch, fat_arch, fat_arch_64, arch_size, arch_at};
ghost use Rattle.fat_slices.specs.Slices.{slice_part};
ghost use Rattle.fat_slices.specs.InnerTable.{HasTable};

use crate::fat_header::FAT_HEADER_LEN;
use crate::file_kind::{FileKind, kind};
use crate::number::{number32, number64};

const FAT_ARCH_LEN: usize = 20;

const FAT_ARCH_64_LEN: usize = 32;

/// The part of a file in an entry. It may end after the file's end.
#[derive(Clone, Copy)]
pub(crate) struct FatArch {
    /// The offset of the part, in bytes from the start of the file.
    pub(crate) offset: u64,
    /// The number of its bytes.
    pub(crate) size: u64,
}

/// The offset of the entry at an index in a file of a kind.
pub(crate) fn arch_offset(kind: FileKind, index: u32) -> usize
    ensures { result ≡ 8 + arch_size kind * index }
{
    let size = match kind {
        FileKind::Universal64 => FAT_ARCH_64_LEN,
        FileKind::Thin | FileKind::Universal | FileKind::Other => FAT_ARCH_LEN,
    };
    FAT_HEADER_LEN + size * index as usize
}

/// The `fat_arch` at the front of the bytes.
fn fat_arch(entry: &[u8]) -> FatArch
    requires { 20 ≤ length entry.now }
    ensures { result ≡ fat_arch entry.now }
{
    FatArch {
        offset: number32(entry, 8) as u64,
        size: number32(entry, 12) as u64,
    }
}

/// The `fat_arch_64` at the front of the bytes.
fn fat_arch_64(entry: &[u8]) -> FatArch
    requires { 32 ≤ length entry.now }
    ensures { result ≡ fat_arch_64 entry.now }
{
    FatArch {
        offset: number64(entry, 8),
        size: number64(entry, 16),
    }
}

/// The entry at an index.
#[tactic(auto, unfolding(crate::specs::Layout::arch_at))]
pub(crate) fn arch_at(file: &[u8], index: u32) -> FatArch
    requires table { HasTable file.now }
    requires inside { index < nfat_arch file.now }
    ensures { result ≡ arch_at file.now index }
{
    let kind = kind(file);
    let entry = file.split_at(arch_offset(kind, index)).1;
    match kind {
        FileKind::Universal64 => fat_arch_64(entry),
        FileKind::Thin | FileKind::Universal | FileKind::Other => fat_arch(entry),
    }
}

/// The part of the file in an entry.
pub(crate) fn slice_part(file: &[u8], arch: FatArch) -> &[u8]
    requires { arch.offset + arch.size ≤ length file.now }
    ensures { result.now ≡ slice_part file.now arch }
{
    &file[arch.offset as usize..][..arch.size as usize]
}
