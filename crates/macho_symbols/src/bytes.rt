//! Parts of strings, and names in them.

ghost use Rattle.std.specs.Prelude.{◌≡◌, ◌<◌, ◌^◌, drop, length, slice_index, take};
ghost use Rattle.macho_symbols.specs.Suffixes.{name_at};
ghost use Rattle.macho_symbols.specs.InnerRanks.{IsHead};

use heap_memory::Heap;
use macho_image::before_nul;

/// The bytes from an offset on; none past the end.
pub(crate) fn from_place(strings: &[u8], place: usize) -> &[u8]
    ensures { result.now ≡ drop place strings.now }
{
    strings.split_at(strings.len().min(place)).1
}

/// The first `size` bytes, or all if there are fewer.
pub(crate) fn first_bytes(bytes: &[u8], size: usize) -> &[u8]
    ensures { result.now ≡ take size bytes.now }
{
    bytes.split_at(bytes.len().min(size)).0
}

/// The first `size` bytes of the name at an offset, or the whole name if it is shorter.
#[tactic(auto, using(crate::proofs::SuffixLemmas::before_take))]
pub(crate) fn name_part(strings: &[u8], place: usize, size: usize) -> &[u8]
    ensures { result.now ≡ take size (name_at strings.now place) }
{
    before_nul(first_bytes(from_place(strings, place), size))
}

/// The byte at an offset, or 0 past the end.
fn byte_at(bytes: &[u8], place: usize) -> u32
    ensures is { result ≡ slice_index bytes.now place }
    ensures small { result < 2 ^ 8 }
{
    if place < bytes.len() {
        return u32::from(bytes[place]);
    }
    0
}

/// The number in the first four bytes, big-endian; missing bytes are 0.
pub(crate) fn head_of(bytes: &[u8]) -> u32
    ensures { IsHead bytes.now result }
{
    let (first, second) = (byte_at(bytes, 0), byte_at(bytes, 1));
    let (third, fourth) = (byte_at(bytes, 2), byte_at(bytes, 3));
    16_777_216 * first + 65_536 * second + 256 * third + fourth
}

/// The index of the slot for these bytes, below `slots`. Equal bytes have the same slot.
fn slot_of(bytes: &[u8], slots: usize) -> usize
    requires { 0 < slots }
    ensures { result < slots }
{
    let mut sum: u64 = 0;
    'words: for word in 0..bytes.len() / 8 {
        let at = 8 * word;
        let value = u64::from_le_bytes([
            bytes[at],
            bytes[at + 1],
            bytes[at + 2],
            bytes[at + 3],
            bytes[at + 4],
            bytes[at + 5],
            bytes[at + 6],
            bytes[at + 7],
        ]);
        sum = sum.wrapping_add(value.wrapping_mul(2 * word as u64 + 1));
    }
    (sum.wrapping_mul(0x9e37_79b9_7f4a_7c15) >> 32) as usize % slots
}

/// The bytes in the slot for `bytes`, if they are equal to them; else `bytes`, which are stored in the slot.
pub(crate) fn shared<'a>(slots: &mut Vec<&'a [u8], Heap>, bytes: &'a [u8]) -> &'a [u8]
    requires { 0 < length slots.old.items }
    ensures same { result.now ≡ bytes.now }
    ensures slots { length slots.new.items ≡ length slots.old.items }
{
    let slot = slot_of(bytes, slots.len());
    let kept = slots[slot];
    if kept == bytes {
        return kept;
    }
    slots[slot] = bytes;
    bytes
}
