//! LEB128 (DWARF 5, section 7.6): numbers of any size, seven bits a byte, the lowest first.

ghost use Rattle.std.specs.Prelude.{◌≡◌, ◌+◌, ◌++◌, ◌<◌, ◌≤◌, ℕ, length, slice_index, IfSome, IfNone, OnOk};
ghost use Rattle.std.specs.Option.{option_map};
ghost use Rattle.dwarf_encoding.specs.Leb128.{unsigned_leb128_at, signed_leb128_at, unsigned_leb128_bytes};
ghost use Rattle.dwarf_encoding.specs.Leb128.{fits_signed, shifted_signed, signed_leb128_bytes};
ghost use Rattle.dwarf_encoding.specs.Inner.{onto_high_bits};

use heap_memory::{Heap, NoMemory};

/// The largest size in bytes of a number of 64 bits.
const MOST_BYTES: usize = 10;

/// The index of the last byte of the number that begins the bytes, which is the first byte below 128.
fn last_index(bytes: &[u8]) -> Option<usize>
    ensures within { IfSome result (λ last. last < length bytes.now) }
    ensures before { IfSome result (λ last. (k : ℕ) → k < last → 128 ≤ slice_index bytes.now k) }
    ensures last { IfSome result (λ last. slice_index bytes.now last < 128) }
    ensures none { IfNone result ((k : ℕ) → k < length bytes.now → 128 ≤ slice_index bytes.now k) }
{
    for (index, byte) in bytes.iter().enumerate() {
        if *byte < 128 {
            return Some(index);
        }
    }
    None
}

/// The number whose low bits are the low seven bits of each of these bytes, and whose high bits are those of `high`.
fn onto_high_bits(bytes: &[u8], high: u64) -> u64
    ensures { result ≡ onto_high_bits bytes.now high }
{
    let mut value = high;
    let mut left = bytes.len();
    while left > 0 {
        left -= 1;
        value = u64::from(bytes[left] % 128) + 128 * (value % (1 << 57));
    }
    value
}

/// The unsigned number that begins the bytes, of any size, and the bytes after it.
fn long_unsigned_leb128(bytes: &[u8]) -> Option<(u64, &[u8])>
    ensures { option_map (λ x. (x.0, x.1.now)) result ≡ unsigned_leb128_at bytes.now }
{
    let last = last_index(bytes)?;
    let (number, rest) = bytes.split_at(last + 1);
    Some((onto_high_bits(number, 0), rest))
}

/// The unsigned number that begins the bytes, and the bytes after it; `None` if no byte is below 128. If the number has
/// more than 64 bits, its low 64 bits count.
#[tactic(auto, unfolding(crate::specs::Leb128::leb128_at))]
pub fn unsigned_leb128(bytes: &[u8]) -> Option<(u64, &[u8])>
    ensures { option_map (λ x. (x.0, x.1.now)) result ≡ unsigned_leb128_at bytes.now }
{
    match bytes.split_first() {
        Some((byte, rest)) if *byte < 128 => Some((u64::from(*byte), rest)),
        _ => long_unsigned_leb128(bytes),
    }
}

/// The signed number that begins the bytes, as its two's complement of 64 bits, and the bytes after it; `None` if no
/// byte is below 128. If the number has more than 64 bits, its low 64 bits count.
pub fn signed_leb128(bytes: &[u8]) -> Option<(u64, &[u8])>
    ensures { option_map (λ x. (x.0, x.1.now)) result ≡ signed_leb128_at bytes.now }
{
    let last = last_index(bytes)?;
    let (number, rest) = bytes.split_at(last + 1);
    let high = if bytes[last] < 64 { 0 } else { u64::MAX };
    Some((onto_high_bits(number, high), rest))
}

/// Adds an unsigned number in its fewest bytes.
pub fn push_unsigned_leb128(bytes: &mut Vec<u8, Heap>, number: u64) -> Result<(), NoMemory>
    ensures { OnOk result (bytes.new.items ≡ bytes.old.items ++ unsigned_leb128_bytes number) }
{
    let mut left = number;
    'bytes: for _ in 1..MOST_BYTES {
        if left < 128 {
            break;
        }
        bytes.push((128 + left % 128) as u8)?;
        left /= 128;
    }
    bytes.push((left % 128) as u8)?;
    Ok(())
}

/// Whether a signed number fits seven bits.
fn fits_signed(number: u64) -> bool
    ensures { result ≡ fits_signed number }
{
    number < 64 || number >= u64::MAX - 63
}

/// A signed number shifted by seven bits, which keeps its sign.
fn shifted_signed(number: u64) -> u64
    ensures { result ≡ shifted_signed number }
{
    let high = if number < 1 << 63 {
        0
    } else {
        u64::MAX - ((1 << 57) - 1)
    };
    number / 128 + high
}

/// Adds a signed number in its fewest bytes. The number is passed as its two's complement of 64 bits.
pub fn push_signed_leb128(bytes: &mut Vec<u8, Heap>, number: u64) -> Result<(), NoMemory>
    ensures { OnOk result (bytes.new.items ≡ bytes.old.items ++ signed_leb128_bytes number) }
{
    let mut left = number;
    'bytes: for _ in 1..MOST_BYTES {
        if fits_signed(left) {
            break;
        }
        bytes.push((128 + left % 128) as u8)?;
        left = shifted_signed(left);
    }
    bytes.push((left % 128) as u8)?;
    Ok(())
}
