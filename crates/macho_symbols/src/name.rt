//! Names in the string table.

ghost use Rattle.std.specs.Prelude.{◌≡◌, ◌==◌, ◌<◌, ◌^◌, length, take, drop, not, nat_lt, nat_eq};
ghost use Rattle.std.specs.List.{before_first};
ghost use Rattle.std.specs.Ordering.{nat_cmp};
ghost use Rattle.std.specs.Cmp.Lexicographic.{slice_cmp, pointwise};
ghost use Rattle.macho_symbols.specs.Symbols.{name_of};
ghost use Rattle.macho_symbols.specs.Views.{name_view};

use macho_image::{Symtab, before_nul};
use std::cmp::Ordering;

/// The string table of an image with this LC_SYMTAB, up to the end of the image.
pub(crate) fn strings_in<'b>(image: &'b [u8], symtab: &Symtab) -> &'b [u8]
    ensures is { result.now ≡ take symtab.now.strsize (drop symtab.now.stroff image.now) }
    ensures few { length result.now < 2 ^ 32 }
{
    let from = image.split_at(image.len().min(symtab.stroff as usize)).1;
    from.split_at(from.len().min(symtab.strsize as usize)).0
}

/// The number of bytes of two names that are compared first.
const FIRST_PIECE: usize = 64;

/// The largest number of bytes that are compared at once, so that a piece is still in the cache when it is searched for
/// a NUL.
const LARGEST_PIECE: usize = 4096;

/// The first `size` bytes, or all if there are fewer, and the bytes after them.
fn split_piece(bytes: &[u8], size: usize) -> (&[u8], &[u8])
    ensures piece { result.0.now ≡ take size bytes.now }
    ensures rest { result.1.now ≡ drop size bytes.now }
{
    bytes.split_at(bytes.len().min(size))
}

/// Compares bytes, each up to its first NUL, piece by piece. It reads only a few times as many bytes as they have in
/// common.
fn compare_to_nul(name: &[u8], other: &[u8]) -> Ordering
    ensures { result ≡ slice_cmp nat_cmp (before_first (λ b. b == 0) name.now) (before_first (λ b. b == 0) other.now) }
{
    let (mut own, mut others) = (name, other);
    let mut size = FIRST_PIECE;
    'pieces: loop {
        let (piece, rest) = split_piece(own, size);
        let (other_piece, other_rest) = split_piece(others, size);
        if piece != other_piece {
            return before_nul(piece).cmp(&before_nul(other_piece));
        }
        if before_nul(piece).len() < size {
            return Ordering::Equal;
        }
        own = rest;
        others = other_rest;
        size = LARGEST_PIECE.min(2 * size);
    }
}

/// A name: the string table from its first byte on. It ends before the first NUL or with the table. Its end is searched
/// for only when the whole name is needed.
#[derive(Clone, Copy)]
pub struct Name<'a> {
    from: &'a [u8],
}

impl<'a> Name<'a> {
    /// The name at an offset of the string table.
    pub fn at(strings: &'a [u8], index: u32) -> Name<'a>
        ensures { name_view result ≡ name_of strings.now index }
    {
        let index = index as usize;
        if index == 0 || strings.len() <= index {
            return Name { from: &[] };
        }
        Name {
            from: strings.split_at(index).1,
        }
    }

    /// Whether the name is empty. It reads the first byte alone.
    pub fn is_empty(&self) -> bool
        ensures { not result ≡ nat_lt 0 (length (name_view self.now)) }
    {
        self.from.is_empty() || self.from[0] == 0
    }

    /// All bytes of the name.
    pub fn bytes(&self) -> &'a [u8]
        ensures { result.now ≡ name_view self.now }
    {
        before_nul(self.from)
    }

    /// Compares two names in byte order.
    pub fn compare(&self, other: &Name<'_>) -> Ordering
        ensures { result ≡ slice_cmp nat_cmp (name_view self.now) (name_view other.now) }
    {
        compare_to_nul(self.from, other.from)
    }

    /// Whether the name is these bytes. It reads at most these bytes, and one byte after them.
    pub(crate) fn is(&self, bytes: &[u8]) -> bool
        ensures { result ≡ pointwise nat_eq (name_view self.now) bytes.now }
    {
        let (piece, _) = split_piece(self.from, bytes.len() + 1);
        self.from.starts_with(bytes) && before_nul(piece).len() == bytes.len()
    }
}
