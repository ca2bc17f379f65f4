//! Bytes with a known SHA-256 that are sent from an offset in a device into a sink.

ghost use Rattle.std.specs.Prelude.{◌≡◌, ◌+◌, ◌<◌, ◌^◌, IfErr, IfOk, OnErr, OnOk, length, true, false};
ghost use Rattle.byte_device.specs.Devices.{CountsFailure, stream};
ghost use Rattle.command_extract.specs.Copies.{HasFewer, HaveDigest};
ghost use Rattle.command_extract.specs.Sending.{SendsAt, TestsAt};

use crate::copying::{CopyFault, copy_at};
use crate::hashing::hash_at;
use byte_device::{Failed, Placed, Sink};

/// Why bytes were not sent.
#[derive(Clone, Copy, Debug, PartialEq, Eq)]
pub enum SendFault {
    /// The bytes at the offset have another SHA-256, or there are fewer, or none are requested.
    Other,
    /// The device failed.
    Device,
    /// The sink failed after it had accepted this number of bytes.
    Sink(u128),
}

/// Whether `size` is not 0 and a device has that number of bytes from offset `at` on. None is read.
fn reaches<P: Placed>(device: &mut P, at: u128, size: u64) -> Result<bool, Failed>
    requires { at + size < 2 ^ 128 }
    ensures fits { IfOk result (λ reaches. reaches ≡ true → at + size < 2 ^ 64) }
    ensures some { IfOk result (λ reaches. reaches ≡ true → 0 < size) }
    ensures ends { IfOk result (λ reaches. reaches ≡ false → 0 < size → HasFewer (P.whole device.old) at size) }
    ensures keeps { P.whole device.new ≡ P.whole device.old }
    ensures count { CountsFailure (P.failures device.old) (P.failures device.new) result }
{
    let total = device.size()?;
    Ok(size > 0 && at + u128::from(size) <= u128::from(total))
}

/// Whether the bytes at an offset have this SHA-256, and there are some. They are read once.
fn has_digest<P: Placed>(
    device: &mut P,
    at: u128,
    size: u64,
    digest: &[u8; 32],
    buffer: &mut [u8],
) -> Result<bool, Failed>
    requires room { 0 < length buffer.old }
    requires counts { at + size < 2 ^ 128 }
    ensures fits { IfOk result (λ has. has ≡ true → at + size < 2 ^ 64) }
    ensures tests { TestsAt (stream P.whole P.failures device.old device.new) at size digest.now result }
{
    if reaches(device, at, size)? {
        match hash_at(device, at as u64, size, buffer)? {
            Some(found) => Ok(found[..] == digest[..]),
            None => Ok(false),
        }
    } else {
        Ok(false)
    }
}

/// Sends `size` bytes that are at offset `at` and have this SHA-256 into a sink. They are read twice: none is sent
/// before they were found to have it, and success is returned only if they have it again as they are sent. The buffer
/// holds one piece at a time.
pub fn send_at<P: Placed, W: Sink>(
    device: &mut P,
    at: u128,
    size: u64,
    digest: &[u8; 32],
    buffer: &mut [u8],
    w: &mut W,
) -> Result<(), SendFault>
    requires room { 0 < length buffer.old }
    requires counts { at + size < 2 ^ 128 }
    ensures { SendsAt (stream P.whole P.failures device.old device.new) (stream W.held W.failures w.old w.new) at size
        digest.now result }
{
    match has_digest(device, at, size, digest, buffer) {
        Ok(true) => send_again(device, at as u64, size, digest, buffer, w),
        Ok(false) => Err(SendFault::Other),
        Err(Failed) => Err(SendFault::Device),
    }
}

/// Copies the bytes at an offset, which had this SHA-256 when they were hashed, into a sink, and compares it again.
fn send_again<P: Placed, W: Sink>(
    device: &mut P,
    at: u64,
    size: u64,
    digest: &[u8; 32],
    buffer: &mut [u8],
    w: &mut W,
) -> Result<(), SendFault>
    requires room { 0 < length buffer.old }
    requires fits { at + size < 2 ^ 64 }
    requires some { 0 < size }
    requires hashed { HaveDigest (P.whole device.old) at size digest.now }
    ensures { SendsAt (stream P.whole P.failures device.old device.new) (stream W.held W.failures w.old w.new) at size
        digest.now result }
{
    match copy_at(device, at, size, buffer, w) {
        Ok(found) => compare(&found, digest),
        Err(CopyFault::Ended) => Err(SendFault::Other),
        Err(CopyFault::Device) => Err(SendFault::Device),
        Err(CopyFault::Sink(written)) => Err(SendFault::Sink(written)),
    }
}

/// Compares the SHA-256 of the bytes that were sent.
fn compare(found: &[u8; 32], digest: &[u8; 32]) -> Result<(), SendFault>
    ensures same { OnOk result (found.now ≡ digest.now) }
    ensures other { OnErr result (found.now ≡ digest.now → ⊥) }
    ensures fault { IfErr result (λ fault. fault ≡ SendFault.Other) }
{
    if found[..] == digest[..] {
        Ok(())
    } else {
        Err(SendFault::Other)
    }
}
