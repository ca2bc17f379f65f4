//! The kind of a file, by its magic.

ghost use Rattle.std.specs.Prelude.{◌≡◌};
ghost use Rattle.fat_slices.specs.Kind.{kind_of, is_fat};

const FAT_MAGIC: u32 = 0xcafe_babe;

const FAT_MAGIC_64: u32 = 0xcafe_babf;

const MH_MAGIC_64: u32 = 0xfeed_facf;

/// The kind of a file, by its first four bytes.
#[derive(Clone, Copy, Debug, PartialEq, Eq)]
pub enum FileKind {
    /// A thin 64-bit little-endian image: MH_MAGIC_64, the bytes `CF FA ED FE`.
    Thin,
    /// A universal file with entries `fat_arch`: FAT_MAGIC, the bytes `CA FE BA BE`. A Java class file has the same
    /// first bytes.
    Universal,
    /// A universal file with entries `fat_arch_64`: FAT_MAGIC_64, the bytes `CA FE BA BF`.
    Universal64,
    /// Any other file, or fewer than four bytes.
    Other,
}

/// The kind of a file with these bytes. Only the first four are read.
#[tactic(auto, unfolding(crate::specs::Kind::kind_of))]
pub fn kind(file: &[u8]) -> FileKind
    ensures { result ≡ kind_of file.now }
{
    if file.starts_with(&FAT_MAGIC.to_be_bytes()) {
        FileKind::Universal
    } else if file.starts_with(&FAT_MAGIC_64.to_be_bytes()) {
        FileKind::Universal64
    } else if file.starts_with(&MH_MAGIC_64.to_le_bytes()) {
        FileKind::Thin
    } else {
        FileKind::Other
    }
}

/// Whether a file of the kind begins with a `fat_header`.
pub(crate) fn is_fat(kind: FileKind) -> bool
    ensures { result ≡ is_fat kind }
{
    matches!(kind, FileKind::Universal | FileKind::Universal64)
}
