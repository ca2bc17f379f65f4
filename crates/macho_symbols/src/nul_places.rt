//! The offsets of NULs in a string table, block by block, so that no name has to be searched to its end.

ghost use Rattle.std.specs.Prelude.{◌≡◌, ◌≤◌, ℕ, IfOk, length};
ghost use Rattle.macho_symbols.specs.Symbols.{name_of};
ghost use Rattle.macho_symbols.specs.NulPlaces.{nul_from, AreNulPlaces};

use heap_memory::{Heap, NoMemory};
use macho_image::before_nul;

/// The size of a block of the string table in bytes.
const BLOCK_SIZE: usize = 4096;

/// The offset of the first NUL at or after an offset, if that for an earlier offset is known: the bytes between the two
/// are not read again.
fn next_nul(strings: &[u8], index: usize, known: usize) -> usize
    requires within { index ≤ length strings.now }
    requires known { (earlier : ℕ) × (earlier ≤ index) × (known ≡ nul_from strings.now earlier) }
    ensures { result ≡ nul_from strings.now index }
{
    if index <= known {
        return known;
    }
    index + before_nul(strings.split_at(index).1).len()
}

/// The offset of the first NUL at or after the beginning of each block of a string table. It reads each byte once.
pub(crate) fn collect_nul_places(heap: Heap, strings: &[u8]) -> Result<Vec<usize, Heap>, NoMemory>
    ensures { IfOk result (λ places. AreNulPlaces strings.now places.items) }
{
    let mut places = Vec::new(heap);
    let mut index = 0;
    let mut known = before_nul(strings).len();
    while index < strings.len() {
        known = next_nul(strings, index, known);
        places.push(known)?;
        index += BLOCK_SIZE;
    }
    Ok(places)
}

/// The offset of the first NUL at or after an offset. It reads no byte after that offset's block.
fn nul_from(strings: &[u8], nul_places: &[usize], index: usize) -> usize
    requires places { AreNulPlaces strings.now nul_places.now }
    requires within { index ≤ length strings.now }
    ensures { result ≡ nul_from strings.now index }
{
    let rest = strings.split_at(index).1;
    let size = rest.len().min(BLOCK_SIZE - index % BLOCK_SIZE);
    let before = before_nul(rest.split_at(size).0).len();
    if before < size || size == rest.len() {
        return index + before;
    }
    nul_places[index / BLOCK_SIZE + 1]
}

/// The name at an offset of the string table.
pub(crate) fn name_from<'b>(strings: &'b [u8], nul_places: &[usize], index: u32) -> &'b [u8]
    requires { AreNulPlaces strings.now nul_places.now }
    ensures { result.now ≡ name_of strings.now index }
{
    let index = index as usize;
    if index == 0 || strings.len() <= index {
        return &[];
    }
    let end = nul_from(strings, nul_places, index);
    strings.split_at(index).1.split_at(end - index).0
}
