//! `symtab_command`: the command LC_SYMTAB.

ghost use Rattle.std.specs.Prelude.{◌≡◌, ◌≤◌, length};
ghost use Rattle.macho_image.specs.Contents.{symtab_fields};

use crate::number::number32;

/// The offsets and sizes of the symbol table and the string table, as LC_SYMTAB has them. Neither range is checked: it
/// may pass the end of the image.
#[derive(Clone, Copy, Debug, PartialEq, Eq)]
pub struct Symtab {
    /// The offset of the symbol table in the image, in bytes.
    pub symoff: u32,
    /// The number of its entries, `nlist_64` of 16 bytes each.
    pub nsyms: u32,
    /// The offset of the string table in the image, in bytes.
    pub stroff: u32,
    /// The size of the string table in bytes.
    pub strsize: u32,
}

/// `symoff`, `nsyms`, `stroff` and `strsize`.
pub(crate) fn symtab_in(command: &[u8]) -> Symtab
    requires { 24 ≤ length command.now }
    ensures { result ≡ symtab_fields command.now }
{
    Symtab {
        symoff: number32(command, 8),
        nsyms: number32(command, 12),
        stroff: number32(command, 16),
        strsize: number32(command, 20),
    }
}
