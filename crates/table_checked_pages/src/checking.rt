//! A number of bytes, compared with their digest; and all bytes of a claim, compared with its root.

ghost use Rattle.std.specs.Prelude.{◌≡◌, ◌≢◌, ◌+◌, ◌++◌, ◌<◌, ◌≤◌, ◌^◌, ◌↔◌, ℕ, List, IfOk, IfErr, IsTrue, OnErr, length, take, drop};
ghost use Rattle.sha2.specs.Sha256.{sha256};
ghost use Rattle.table_checked_pages.specs.Pages.{AreStored, root_of, stored};
ghost use Rattle.table_checked_pages.specs.Reading.{ReadsStored};
ghost use Rattle.table_checked_pages.specs.Views.{claim_view};
ghost use Rattle.table_checked_pages.specs.declared.fault.CheckFault.TheVariants.{Changed, Device};

use crate::sizes::digests_len;
use crate::storing::digests_over;
use crate::{CheckFault, Claim};
use byte_device::{Placed, ReadFault, read_at};
use heap_memory::{Heap, NoMemory};
use sha2::{Digest, Sha256};

/// Reads `count` bytes from an offset on. The error is `Changed` if there are fewer, `Device` or `OutOfMemory`.
fn read_part<P: Placed>(
    heap: Heap,
    device: &mut P,
    offset: u64,
    count: u64,
) -> Result<Vec<u8, Heap>, CheckFault>
    requires { offset + count < 2 ^ 64 }
    ensures long { IfOk result (λ bytes. length bytes.items ≡ count) }
    ensures read { ReadsStored P.whole P.failures device.old device.new result
        (λ text bytes. bytes.items ≡ take count (drop offset text))
        (λ text. offset + count ≤ length text → ⊥) }
{
    match read_at(heap, device, offset, count) {
        Ok(Some(bytes)) => Ok(bytes),
        Ok(None) => Err(CheckFault::Changed),
        Err(ReadFault::Device) => Err(CheckFault::Device),
        Err(ReadFault::OutOfMemory) => Err(CheckFault::OutOfMemory),
    }
}

/// Reads `count` bytes from an offset on, and compares their SHA-256 with a digest. The error is `Changed` if it
/// differs or there are fewer bytes, `Device` or `OutOfMemory`.
pub fn read_checked<P: Placed>(
    heap: Heap,
    device: &mut P,
    offset: u64,
    count: u64,
    digest: &[u8],
) -> Result<Vec<u8, Heap>, CheckFault>
    requires { offset + count < 2 ^ 64 }
    ensures long { IfOk result (λ bytes. length bytes.items ≡ count) }
    ensures read { ReadsStored P.whole P.failures device.old device.new result
        (λ text bytes. (bytes.items ≡ take count (drop offset text)) × (sha256 bytes.items ≡ digest.now))
        (λ text. offset + count ≤ length text → sha256 (take count (drop offset text)) ≡ digest.now → ⊥) }
{
    let bytes = read_part(heap, device, offset, count)?;
    has_digest(bytes, digest)
}

/// The bytes, if they have this SHA-256; else the error `Changed`.
fn has_digest(bytes: Vec<u8, Heap>, digest: &[u8]) -> Result<Vec<u8, Heap>, CheckFault>
    ensures same { IfOk result (λ same. (same.items ≡ bytes.items) × (sha256 bytes.items ≡ digest.now)) }
    ensures changed { OnErr result (sha256 bytes.items ≡ digest.now → ⊥) }
    ensures fault { IfErr result (λ fault. fault ≡ CheckFault.Changed) }
{
    let found = Sha256::digest(&bytes[..]);
    if &found[..] == digest {
        Ok(bytes)
    } else {
        Err(CheckFault::Changed)
    }
}

/// Whether these are the same bytes.
fn are_same(bytes: &[u8], other: &[u8]) -> bool
    ensures { IsTrue result ↔ (bytes.now ≡ other.now) }
{
    bytes == other
}

/// The bytes, if they are stored after these digests and have this root. The error is `Changed` or `OutOfMemory`.
fn are_under(
    heap: &Heap,
    digests: &[u8],
    bytes: Vec<u8, Heap>,
    root: &[u8],
) -> Result<Vec<u8, Heap>, CheckFault>
    ensures same { IfOk result (λ same. (same.items ≡ bytes.items)
        × (stored bytes.items ≡ digests.now ++ bytes.items) × (root_of bytes.items ≡ root.now)) }
    ensures changed { IfErr result (λ fault. fault ≡ Changed → stored bytes.items ≡ digests.now ++ bytes.items
        → root_of bytes.items ≡ root.now → ⊥) }
    ensures device { IfErr result (λ fault. fault ≢ Device) }
{
    let over = match digests_over(heap, &bytes) {
        Ok(over) => over,
        Err(NoMemory) => return Err(CheckFault::OutOfMemory),
    };
    if !are_same(&over.bytes, digests) {
        return Err(CheckFault::Changed);
    }
    let found = over.root;
    if !are_same(&found, root) {
        return Err(CheckFault::Changed);
    }
    Ok(bytes)
}

/// Reads all bytes of a claim, and compares them and the digests before them with the root. The error is `Changed` if
/// they differ or there are fewer, `Device` or `OutOfMemory`.
pub fn read_all<P: Placed>(
    heap: &Heap,
    device: &mut P,
    claim: Claim,
) -> Result<Vec<u8, Heap>, CheckFault>
    ensures long { IfOk result (λ bytes. length bytes.items ≡ claim.size) }
    ensures read { ReadsStored P.whole P.failures device.old device.new result
        (λ text bytes. claim.offset ≤ length text → AreStored text (claim_view claim) bytes.items)
        (λ text. length text < 2 ^ 64 → (all : List ℕ) → AreStored text (claim_view claim) all → ⊥) }
{
    let len = digests_len(claim.size);
    let Some(first) = claim.offset.checked_add(len) else {
        return Err(CheckFault::Changed);
    };
    let Some(_) = first.checked_add(claim.size) else {
        return Err(CheckFault::Changed);
    };
    let digests = read_part(heap.share(), device, claim.offset, len)?;
    let bytes = read_part(heap.share(), device, first, claim.size)?;
    are_under(heap, &digests, bytes, &claim.root)
}
