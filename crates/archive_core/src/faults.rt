//! Faults of bytes that are no slice, or are not admitted.
use macho_image::ImageFault;
use macho_symbols::SymbolFault;

/// Why bytes are no slice.
#[derive(Clone, Copy, Debug, PartialEq, Eq)]
pub enum SliceFault {
    /// They are no image.
    Image(ImageFault),
    /// They are an image whose symbols cannot be read.
    Symbols(SymbolFault),
}

/// Why bytes are not admitted. The bytes are checked first: memory is allocated only if they are a slice.
#[derive(Clone, Copy, Debug, PartialEq, Eq)]
pub enum AdmitFault {
    /// They are no slice.
    Slice(SliceFault),
    /// They are a slice, and memory ran out.
    OutOfMemory,
}
