//! The SHA-256 of bytes at an offset in a device.

ghost use Rattle.std.specs.Prelude.{◌+◌, ◌<◌, ◌^◌, length};
ghost use Rattle.byte_device.specs.Devices.{stream};
ghost use Rattle.command_extract.specs.Copies.{HashesAt};

use crate::copying::{CopyFault, copy_at};
use byte_device::{Failed, Nowhere, Placed};

/// The SHA-256 of `size` bytes from offset `at` on; `None` if there are fewer. The buffer holds one piece at a time.
pub fn hash_at<P: Placed>(
    device: &mut P,
    at: u64,
    size: u64,
    buffer: &mut [u8],
) -> Result<Option<[u8; 32]>, Failed>
    requires room { 0 < length buffer.old }
    requires fits { at + size < 2 ^ 64 }
    ensures { HashesAt (stream P.whole P.failures device.old device.new) at size result }
{
    match copy_at(device, at, size, buffer, &mut Nowhere) {
        Ok(digest) => Ok(Some(digest)),
        Err(CopyFault::Ended) => Ok(None),
        Err(CopyFault::Device) => Err(Failed),
        Err(CopyFault::Sink(_)) => unreachable!(),
    }
}
