//! Reads a source to its end.

ghost use Rattle.std.specs.Prelude.{◌≡◌, ℕ, List, [], ◌∷◌, ◌<◌, ◌≤◌, length, take};
ghost use Rattle.std.specs.Prelude.{true, false, OnOk, OnErr, IfOk, IfSome, Err};
ghost use Rattle.std.specs.Io.KnownBytes.{Consumes, IsAtEnd};
ghost use Rattle.byte_device.specs.Devices.{FailedIn};

use crate::{Failed, PIECE_LEN, Source, make_room};
use heap_memory::{Heap, NoMemory};

/// Why a source was not read to its end.
#[derive(Clone, Copy, Debug, PartialEq, Eq)]
pub enum ReadFault {
    /// The source failed in this call.
    Device,
    /// Memory ran out.
    OutOfMemory,
}

/// Whether the source is at its end. If it is not, its next byte is consumed.
pub fn is_at_end<R: Source>(r: &mut R) -> Result<bool, Failed>
    ensures end { IfOk result (λ end. end ≡ true → Consumes (R.left r.old) (R.left r.new) []) }
    ensures at_end { IfOk result (λ end. end ≡ true → IsAtEnd (R.left r.new)) }
    ensures more { IfOk result (λ end. end ≡ false → ((b : ℕ) × Consumes (R.left r.old) (R.left r.new) (b ∷ []))) }
    ensures unfailed { OnOk result (R.failures r.new ≡ R.failures r.old) }
    ensures err { OnErr result (Consumes (R.left r.old) (R.left r.new) []) }
    ensures failed { OnErr result (FailedIn (R.failures r.old) (R.failures r.new)) }
{
    let mut one = [0; 1];
    let n = r.pull(&mut one)?;
    Ok(n == 0)
}

/// Reads all the bytes that the source has left. Bytes that were read before a fault are lost.
///
/// They are read straight into the returned memory, which has room for 64 KiB at first, and grows as in [`make_room`].
pub fn read_to_end<R: Source>(heap: Heap, r: &mut R) -> Result<Vec<u8, Heap>, ReadFault>
    // The result is all bytes that were left.
    ensures taken { IfOk result (λ bytes. Consumes (R.left r.old) (R.left r.new) bytes.items) }
    ensures at_end { OnOk result (IsAtEnd (R.left r.new)) }
    ensures whole { IfOk result (λ bytes. IfSome (R.left r.old) (λ left. bytes.items ≡ left)) }
    ensures unfailed { OnOk result (R.failures r.new ≡ R.failures r.old) }

    // The lost bytes are the first of those that were left.
    ensures lost { OnErr result ((bytes : List ℕ) × Consumes (R.left r.old) (R.left r.new) bytes) }
    ensures device { result ≡ Err ReadFault.Device → FailedIn (R.failures r.old) (R.failures r.new) }
    ensures memory { result ≡ Err ReadFault.OutOfMemory → R.failures r.new ≡ R.failures r.old }
{
    let mut bytes = Vec::new(heap);
    let mut filled = 0;
    'filling: loop {
        if let Err(NoMemory) = lengthen(&mut bytes, filled) {
            return Err(ReadFault::OutOfMemory);
        }
        match r.pull(&mut bytes[filled..]) {
            Ok(0) => {
                bytes.truncate(filled);
                bytes.shrink_to_fit();
                return Ok(bytes);
            }
            Ok(n) => filled += n,
            Err(Failed) => return Err(ReadFault::Device),
        }
    }
}

// Extends the bytes beyond the first `filled`, if they are not longer. Each byte is set to 0 once.
fn lengthen(bytes: &mut Vec<u8, Heap>, filled: usize) -> Result<(), NoMemory>
    requires { filled ≤ length bytes.old.items }
    ensures room { OnOk result (filled < length bytes.new.items) }
    ensures kept { OnOk result (take filled bytes.new.items ≡ take filled bytes.old.items) }
{
    if filled == bytes.len() {
        let end = filled + PIECE_LEN;
        make_room(bytes, end, usize::MAX)?;
        bytes.resize(end, 0)?;
    }
    Ok(())
}
