//! Copies of bytes from an offset in a device into a sink.

ghost use Rattle.std.specs.Prelude.{◌≡◌, ◌+◌, ◌<◌, ◌≤◌, ◌^◌, IfOk, length};
ghost use Rattle.byte_device.specs.Devices.{CountsFailure, stream};
ghost use Rattle.byte_device.specs.Places.{TakenAt};
ghost use Rattle.command_extract.specs.Copies.{CopiesAt};

use byte_device::{Failed, Placed, Sink, push_all};
use sha2::{Digest, Sha256};

/// Why a copy is incomplete.
#[derive(Clone, Copy, Debug, PartialEq, Eq)]
pub enum CopyFault {
    /// The device has fewer bytes at the offset.
    Ended,
    /// The device failed.
    Device,
    /// The sink failed after it had accepted this number of bytes.
    Sink(u128),
}

/// Reads at most `most` bytes from offset `at` on into the first bytes of a buffer.
fn take_piece<P: Placed>(
    device: &mut P,
    at: u64,
    most: u64,
    buffer: &mut [u8],
) -> Result<usize, Failed>
    requires room { 0 < length buffer.old }
    requires some { 0 < most }
    ensures room { IfOk result (λ n. n ≤ length buffer.new) }
    ensures most { IfOk result (λ n. n ≤ most) }
    ensures bytes { IfOk result (λ n. TakenAt (P.whole device.old) at n buffer.new) }
    ensures keeps { P.whole device.new ≡ P.whole device.old }
    ensures count { CountsFailure (P.failures device.old) (P.failures device.new) result }
{
    let room = buffer.len().min(most as usize);
    device.take_at(at, &mut buffer[..room])
}

/// Copies `size` bytes from offset `at` on into a sink, and returns their SHA-256. The buffer holds one piece at a
/// time.
pub fn copy_at<P: Placed, W: Sink>(
    device: &mut P,
    at: u64,
    size: u64,
    buffer: &mut [u8],
    w: &mut W,
) -> Result<[u8; 32], CopyFault>
    requires room { 0 < length buffer.old }
    requires fits { at + size < 2 ^ 64 }
    ensures { CopiesAt (stream P.whole P.failures device.old device.new) (stream W.held W.failures w.old w.new) at size
        result }
{
    let mut hasher = Sha256::new();
    let mut done = 0;
    'copying: while done < size {
        let n = match take_piece(device, at + done, size - done, buffer) {
            Ok(0) => return Err(CopyFault::Ended),
            Ok(n) => n,
            Err(Failed) => return Err(CopyFault::Device),
        };
        let piece = &buffer[..n];
        hasher.update(piece);
        if let Err(fault) = push_all(w, piece) {
            return Err(CopyFault::Sink(done as u128 + fault.written));
        }
        done += n as u64;
    }
    Ok(hasher.finalize())
}
