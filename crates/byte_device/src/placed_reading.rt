//! Reads a number of bytes from an offset.

ghost use Rattle.std.specs.Prelude.{◌≡◌, ◌+◌, ◌^◌, ◌<◌, ◌≤◌, length, take, Err, IfOk, MatchOption, OnOk};
ghost use Rattle.byte_device.specs.Devices.{FailedIn, FailsWithin};
ghost use Rattle.byte_device.specs.Places.{EndsBefore, Stands};

use crate::{Failed, PIECE_LEN, Placed, ReadFault, make_room};
use heap_memory::{Heap, NoMemory};

/// Reads `count` bytes from the offset; returns none if there are fewer.
///
/// The memory grows with the bytes that were read, as in [`make_room`], and never beyond `count`.
pub fn read_at<P: Placed>(
    heap: Heap,
    device: &mut P,
    at: u64,
    count: u64,
) -> Result<Option<Vec<u8, Heap>>, ReadFault>
    requires { at + count < 2 ^ 64 }
    ensures read { IfOk result (λ read. MatchOption read (EndsBefore (P.whole device.old) (at + count))
        (λ bytes. (length bytes.items ≡ count) × Stands (P.whole device.old) at bytes.items)) }
    ensures keeps { P.whole device.new ≡ P.whole device.old }
    ensures unfailed { OnOk result (P.failures device.new ≡ P.failures device.old) }
    ensures device { result ≡ Err ReadFault.Device → FailedIn (P.failures device.old) (P.failures device.new) }
    ensures unread { result ≡ Err ReadFault.Device
        → FailsWithin P.whole P.failures P.unread device.old device.new at count }
    ensures memory { result ≡ Err ReadFault.OutOfMemory → P.failures device.new ≡ P.failures device.old }
{
    let mut bytes = Vec::new(heap);
    let mut filled = 0;
    'filling: while (filled as u64) < count {
        if let Err(NoMemory) = lengthen(&mut bytes, filled, count as usize) {
            return Err(ReadFault::OutOfMemory);
        }
        match device.take_at(at + filled as u64, &mut bytes[filled..]) {
            Ok(0) => return Ok(None),
            Ok(n) => filled += n,
            Err(Failed) => return Err(ReadFault::Device),
        }
    }
    Ok(Some(bytes))
}

// Extends the bytes beyond the first `filled`, if they are not longer, up to at most `most`.
fn lengthen(bytes: &mut Vec<u8, Heap>, filled: usize, most: usize) -> Result<(), NoMemory>
    requires filled { filled ≤ length bytes.old.items }
    requires within { length bytes.old.items ≤ most }
    requires less { filled < most }
    ensures room { OnOk result (filled < length bytes.new.items) }
    ensures most { OnOk result (length bytes.new.items ≤ most) }
    ensures kept { OnOk result (take filled bytes.new.items ≡ take filled bytes.old.items) }
{
    if filled == bytes.len() {
        let end = filled + PIECE_LEN.min(most - filled);
        make_room(bytes, end, most)?;
        bytes.resize(end, 0)?;
    }
    Ok(())
}
