//! Devices for tests: they read or write a part at a time, and fail at a given limit.

ghost use Rattle.std.specs.Prelude.{◌≡◌, ◌<◌, ◌≤◌, ◌+◌, ◌⊎◌, ◌↔◌, Some, [], IfOk, IsErr};
ghost use Rattle.std.specs.Prelude.{OnErr, length, min, vec_capacity, MatchResult};
ghost use Rattle.std.specs.Io.KnownBytes.{ReadConsumes, WriteAppends};
ghost use Rattle.byte_device.specs.Devices.{CountsFailure, most_failures};

use crate::{Failed, Sink, Source};
use heap_memory::Heap;

/// The bytes of a slice, a few at a time. After it has returned as many bytes as its limit, each pull fails, also at
/// the end of the slice.
#[derive(Drop)]
pub struct Pieces<'a> {
    rest: &'a [u8],
    size: usize,
    limit: usize,
    failures: u64,
    ghost gives: { 0 < size },
}

impl<'a> Pieces<'a> {
    ghost use Rattle.byte_device.specs.Limits.{piece_size, pieces_limit};

    /// Creates a device that returns these bytes, at most `size` at a time, and at most `limit` in all before it fails.
    /// With the limit `usize::MAX` it reaches the end of any slice.
    pub fn new(bytes: &'a [u8], size: usize, limit: usize) -> Self
        requires { 0 < size }
        ensures left { ⟦<Pieces<'a> as Source>⟧.left result ≡ Some bytes.now }
        ensures failures { ⟦<Pieces<'a> as Source>⟧.failures result ≡ 0 }
        ensures size { piece_size result ≡ size }
        ensures limit { pieces_limit result ≡ limit }
    {
        Pieces {
            rest: bytes,
            size,
            limit,
            failures: 0,
        }
    }
}

impl<'a> Source for Pieces<'a> {
    ghost use Rattle.byte_device.specs.Limits.{piece_size, pieces_limit};

    ghost left = { λ s. Some s.rest.now };

    ghost failures = { λ s. s.failures };

    fn pull(&mut self, buf: &mut [u8]) -> Result<usize, Failed>
        ensures bound { IfOk result (λ n. n ≤ length buf.new) }
        ensures bytes { ReadConsumes (Some self.old.rest.now) (Some self.new.rest.now) result buf.new }
        ensures count { CountsFailure self.old.failures self.new.failures result }

        // It fails exactly if its limit is reached, or its count of failures is at its greatest.
        ensures fails { IsErr result ↔ ((pieces_limit self.old ≡ 0) ⊎ (self.old.failures ≡ most_failures)) }
        ensures piece { IfOk result (λ n. n ≡
            min (min (length self.old.rest.now) (length buf.new))
            (min (piece_size self.old) (pieces_limit self.old))) }
        ensures limit { MatchResult result
            (λ n. pieces_limit self.new + n ≡ pieces_limit self.old)
            (λ _. pieces_limit self.new ≡ pieces_limit self.old) }
        ensures size { piece_size self.new ≡ piece_size self.old }
    {
        if self.failures == u64::MAX {
            return Err(Failed);
        }
        if self.limit == 0 {
            self.failures += 1;
            return Err(Failed);
        }
        let most = self.size.min(self.limit);
        let n = self.rest.len().min(buf.len()).min(most);
        let (taken, left) = self.rest.split_at(n);
        buf[..n].copy_from_slice(taken);
        self.rest = left;
        self.limit -= n;
        Ok(n)
    }
}

/// Bytes in memory, up to a limit. A push fails after as many bytes as the limit, and if memory runs out.
#[derive(Drop)]
pub struct Short {
    bytes: Vec<u8, Heap>,
    limit: usize,
    failures: u64,
}

impl Short {
    ghost use Rattle.byte_device.specs.Limits.{short_limit};

    /// Creates a device without bytes, which accepts `limit` bytes before it fails.
    pub fn new(heap: Heap, limit: usize) -> Self
        ensures held { ⟦<Short as Sink>⟧.held result ≡ Some [] }
        ensures failures { ⟦<Short as Sink>⟧.failures result ≡ 0 }
        ensures limit { short_limit result ≡ limit }
    {
        Short {
            bytes: Vec::new(heap),
            limit,
            failures: 0,
        }
    }

    /// The bytes of the device.
    pub fn as_slice(&self) -> &[u8]
        ensures { ⟦<Short as Sink>⟧.held self.now ≡ Some result.now }
    {
        &self.bytes
    }
}

impl Sink for Short {
    ghost use Rattle.byte_device.specs.Limits.{short_limit};

    ghost held = { λ s. Some s.bytes.items };

    ghost failures = { λ s. s.failures };

    fn push(&mut self, bytes: &[u8]) -> Result<usize, Failed>
        ensures bound { IfOk result (λ n. n ≤ length bytes.now) }
        ensures some { 0 < length bytes.now → IfOk result (λ n. 0 < n) }
        ensures bytes { WriteAppends (Some self.old.bytes.items) (Some self.new.bytes.items) result bytes.now }
        ensures count { CountsFailure self.old.failures self.new.failures result }

        // It fails if its limit is reached, and otherwise only if memory runs out or its count of failures is at its
        // greatest.
        ensures reached { short_limit self.old ≡ 0 → IsErr result }
        ensures refused { OnErr result (
            (short_limit self.old ≡ 0)
            ⊎ (vec_capacity self.old.bytes <
            length self.old.bytes.items + min (length bytes.now) (short_limit self.old))
            ⊎ (self.old.failures ≡ most_failures)) }
        ensures part { IfOk result (λ n. n ≡ min (length bytes.now) (short_limit self.old)) }
        ensures limit { MatchResult result
            (λ n. short_limit self.new + n ≡ short_limit self.old)
            (λ _. short_limit self.new ≡ short_limit self.old) }
    {
        if self.failures == u64::MAX {
            return Err(Failed);
        }
        if self.limit > 0 {
            let n = bytes.len().min(self.limit);
            if let Ok(()) = self.bytes.extend_from_slice(&bytes[..n]) {
                self.limit -= n;
                return Ok(n);
            }
        }
        self.failures += 1;
        Err(Failed)
    }
}
