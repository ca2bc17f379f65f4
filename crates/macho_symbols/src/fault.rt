/// Why the symbols of an image cannot be read. If both faults apply, the first is reported.
#[derive(Clone, Copy, Debug, PartialEq, Eq)]
pub enum SymbolFault {
    /// There are entries, and the `nsyms` entries of 16 bytes from `symoff` on pass the end of the image.
    SymbolsOutside,
    /// There are strings, and the `strsize` bytes from `stroff` on pass the end of the image.
    StringsOutside,
}
