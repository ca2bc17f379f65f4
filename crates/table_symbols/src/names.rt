//! Names among the strings of a stored table.

ghost use Rattle.std.specs.Prelude.{◌≡◌, ◌+◌, ◌<◌, ◌≤◌, ◌^◌, ◌==◌, ◌++◌, ℕ, List, IfErr, OnOk, length, take, drop};
ghost use Rattle.std.specs.List.{before_first};
ghost use Rattle.table_checked_pages.specs.Pages.{AreStored};
ghost use Rattle.table_checked_pages.specs.Views.{ArePagesOf, KeepsPages, claim_view};
ghost use Rattle.table_checked_pages.specs.Reading.{ReadsStored};

use byte_device::Placed;
use heap_memory::Heap;
use macho_image::before_nul;
use table_checked_pages::{CheckFault, Pages};

/// The number of bytes that are read at once.
const PIECE: usize = 64;

/// Adds bytes to a name.
fn push_bytes(name: &mut Vec<u8, Heap>, bytes: &[u8]) -> Result<(), CheckFault>
    ensures pushed { OnOk result (name.new.items ≡ name.old.items ++ bytes.now) }
    ensures fault { IfErr result (λ fault. fault ≡ CheckFault.OutOfMemory) }
{
    match name.extend_from_slice(bytes) {
        Ok(()) => Ok(()),
        Err(_) => Err(CheckFault::OutOfMemory),
    }
}

/// The name at an offset of the strings, which are the `size` bytes of the table from `first` on. It ends before the
/// first NUL, or with the strings; past their end it is empty. The errors are those of [`CheckFault`].
pub fn name_from<P: Placed>(
    heap: Heap,
    device: &mut P,
    table: &mut Pages,
    first: u64,
    size: u64,
    offset: u64,
) -> Result<Vec<u8, Heap>, CheckFault>
    requires { first + size < 2 ^ 64 }
    ensures claim { table.new.claim ≡ table.old.claim }
    ensures keeps { KeepsPages P.whole device.old table.old table.new }
    ensures read { ReadsStored P.whole P.failures device.old device.new result
        (λ text name. (all : List ℕ) → ArePagesOf table.old text all
        → name.items ≡ before_first (λ b. b == 0) (drop offset (take size (drop first all))))
        (λ text. (all : List ℕ) → AreStored text (claim_view table.old.claim) all → ArePagesOf table.old text all
        → first + size ≤ length all → ⊥) }
{
    let mut name = Vec::new(heap);
    let mut at = offset;
    'pieces: while at < size {
        let n = (size - at).min(PIECE as u64) as usize;
        let mut room = [0; PIECE];
        let piece = &mut room[..n];
        table.read(device, first + at, piece)?;
        let part = before_nul(piece);
        push_bytes(&mut name, part)?;
        if part.len() < n {
            return Ok(name);
        }
        at += n as u64;
    }
    Ok(name)
}
