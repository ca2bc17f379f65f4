//! Devices over memory.

ghost use Rattle.std.specs.Prelude.{◌≡◌, ◌+◌, ◌<◌, ◌≤◌, ◌⊎◌, Some, [], IfOk, IsOk, OnErr, length, min, vec_capacity};
ghost use Rattle.std.specs.Io.KnownBytes.{ReadConsumes, WriteAppends};
ghost use Rattle.byte_device.specs.Devices.{CountsFailure, most_failures};

use crate::{Failed, Sink, Source};
use heap_memory::Heap;

/// The bytes of a slice. It never fails.
#[derive(Drop)]
pub struct Bytes<'a> {
    rest: &'a [u8],
}

impl<'a> Bytes<'a> {
    /// Creates a device that returns these bytes.
    pub fn new(bytes: &'a [u8]) -> Self
        ensures left { ⟦<Bytes<'a> as Source>⟧.left result ≡ Some bytes.now }
        ensures failures { ⟦<Bytes<'a> as Source>⟧.failures result ≡ 0 }
    {
        Bytes { rest: bytes }
    }
}

impl<'a> Source for Bytes<'a> {
    ghost left = { λ s. Some s.rest.now };

    ghost failures = { λ _. 0 };

    /// Fills `buf`, or reads all bytes that are left if they are fewer.
    fn pull(&mut self, buf: &mut [u8]) -> Result<usize, Failed>
        ensures bound { IfOk result (λ n. n ≤ length buf.new) }
        ensures bytes { ReadConsumes (Some self.old.rest.now) (Some self.new.rest.now) result buf.new }
        ensures count { CountsFailure 0 0 result }
        ensures never_fails { IsOk result }
        ensures all { IfOk result (λ n. n ≡ min (length self.old.rest.now) (length buf.new)) }
    {
        let n = self.rest.len().min(buf.len());
        let (taken, left) = self.rest.split_at(n);
        buf[..n].copy_from_slice(taken);
        self.rest = left;
        Ok(n)
    }
}

/// Bytes in memory; the memory grows with them.
#[derive(Drop)]
pub struct Grown {
    bytes: Vec<u8, Heap>,
    failures: u64,
}

impl Grown {
    /// Creates a device without bytes. It allocates no memory before its first push.
    pub fn new(heap: Heap) -> Self
        ensures held { ⟦<Grown as Sink>⟧.held result ≡ Some [] }
        ensures failures { ⟦<Grown as Sink>⟧.failures result ≡ 0 }
    {
        Grown {
            bytes: Vec::new(heap),
            failures: 0,
        }
    }

    /// The bytes of the device.
    pub fn as_slice(&self) -> &[u8]
        ensures { ⟦<Grown as Sink>⟧.held self.now ≡ Some result.now }
    {
        &self.bytes
    }

    /// The bytes of the device, owned.
    pub fn into_bytes(self) -> Vec<u8, Heap>
        ensures { ⟦<Grown as Sink>⟧.held self ≡ Some result.items }
    {
        self.bytes
    }
}

impl Sink for Grown {
    ghost held = { λ s. Some s.bytes.items };

    ghost failures = { λ s. s.failures };

    /// Accepts all of `bytes`. It fails only if memory runs out, or if its count of failures is at its greatest.
    fn push(&mut self, bytes: &[u8]) -> Result<usize, Failed>
        ensures bound { IfOk result (λ n. n ≤ length bytes.now) }
        ensures some { 0 < length bytes.now → IfOk result (λ n. 0 < n) }
        ensures bytes { WriteAppends (Some self.old.bytes.items) (Some self.new.bytes.items) result bytes.now }
        ensures count { CountsFailure self.old.failures self.new.failures result }
        ensures all { IfOk result (λ n. n ≡ length bytes.now) }
        ensures refused { OnErr result (
            (vec_capacity self.old.bytes < length self.old.bytes.items + length bytes.now)
            ⊎ (self.old.failures ≡ most_failures)) }
    {
        if self.failures == u64::MAX {
            return Err(Failed);
        }
        match self.bytes.extend_from_slice(bytes) {
            Ok(()) => Ok(bytes.len()),
            Err(_) => {
                self.failures += 1;
                Err(Failed)
            }
        }
    }
}
