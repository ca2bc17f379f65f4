//! A device for tests: it reads a part at a time, and fails at a given limit.

ghost use Rattle.std.specs.Prelude.{◌≡◌, ◌<◌, ◌≤◌, ◌+◌, ◌-◌, ◌⊎◌, ◌↔◌, Some, IfOk, IsErr, OnErr, length, min};
ghost use Rattle.std.specs.Prelude.{MatchResult};
ghost use Rattle.byte_device.specs.Devices.{CountsFailure, most_failures};
ghost use Rattle.byte_device.specs.Places.{HasSize, TakenAt};

use crate::{Failed, Placed};

/// The bytes of a slice, a few at a time. After it has returned as many bytes as its limit, each call fails.
#[derive(Drop)]
pub struct PlacedPieces<'a> {
    bytes: &'a [u8],
    size: usize,
    limit: usize,
    failures: u64,
    ghost gives: { 0 < size },
}

impl<'a> PlacedPieces<'a> {
    ghost use Rattle.byte_device.specs.Limits.{placed_piece_size, placed_pieces_limit};

    /// Creates a device with these bytes, which returns at most `size` at a time, and at most `limit` in all before it
    /// fails.
    pub fn new(bytes: &'a [u8], size: usize, limit: usize) -> Self
        requires { 0 < size }
        ensures whole { ⟦<PlacedPieces<'a> as Placed>⟧.whole result ≡ Some bytes.now }
        ensures failures { ⟦<PlacedPieces<'a> as Placed>⟧.failures result ≡ 0 }
        ensures size { placed_piece_size result ≡ size }
        ensures limit { placed_pieces_limit result ≡ limit }
    {
        PlacedPieces {
            bytes,
            size,
            limit,
            failures: 0,
        }
    }
}

impl<'a> Placed for PlacedPieces<'a> {
    ghost use Rattle.byte_device.specs.Devices.{FailedIn};
    ghost use Rattle.byte_device.specs.Limits.{placed_piece_size, placed_pieces_limit};

    ghost whole = { λ s. Some s.bytes.now };

    ghost failures = { λ s. s.failures };

    ghost unread = { λ old new _. FailedIn old.failures new.failures };

    ghost unmeasured = { λ old new. FailedIn old.failures new.failures };

    fn take_at(&mut self, at: u64, buf: &mut [u8]) -> Result<usize, Failed>
        ensures bound { IfOk result (λ n. n ≤ length buf.new) }
        ensures bytes { IfOk result (λ n. TakenAt (Some self.old.bytes.now) at n buf.new) }
        ensures keeps { Some self.new.bytes.now ≡ Some self.old.bytes.now }
        ensures count { CountsFailure self.old.failures self.new.failures result }
        ensures unread { OnErr result (FailedIn self.old.failures self.new.failures) }

        // It fails exactly if its limit is reached, or its count of failures is at its greatest.
        ensures fails { IsErr result ↔ ((placed_pieces_limit self.old ≡ 0) ⊎ (self.old.failures ≡ most_failures)) }
        ensures piece { IfOk result (λ n. n ≡
            min (min (length self.old.bytes.now - at) (length buf.new))
            (min (placed_piece_size self.old) (placed_pieces_limit self.old))) }
        ensures limit { MatchResult result
            (λ n. placed_pieces_limit self.new + n ≡ placed_pieces_limit self.old)
            (λ _. placed_pieces_limit self.new ≡ placed_pieces_limit self.old) }
        ensures size { placed_piece_size self.new ≡ placed_piece_size self.old }
    {
        if self.failures == u64::MAX {
            return Err(Failed);
        }
        if self.limit == 0 {
            self.failures += 1;
            return Err(Failed);
        }
        let start = self.bytes.len().min(at as usize);
        let rest = &self.bytes[start..];
        let most = self.size.min(self.limit);
        let n = rest.len().min(buf.len()).min(most);
        buf[..n].copy_from_slice(&rest[..n]);
        self.limit -= n;
        Ok(n)
    }

    fn size(&mut self) -> Result<u64, Failed>
        ensures size { IfOk result (λ size. HasSize (Some self.old.bytes.now) size) }
        ensures keeps { Some self.new.bytes.now ≡ Some self.old.bytes.now }
        ensures count { CountsFailure self.old.failures self.new.failures result }
        ensures unmeasured { OnErr result (FailedIn self.old.failures self.new.failures) }

        // It fails exactly if `take_at` does.
        ensures fails { IsErr result ↔ ((placed_pieces_limit self.old ≡ 0) ⊎ (self.old.failures ≡ most_failures)) }
        ensures limit { placed_pieces_limit self.new ≡ placed_pieces_limit self.old }
        ensures piece { placed_piece_size self.new ≡ placed_piece_size self.old }
    {
        if self.failures == u64::MAX {
            return Err(Failed);
        }
        if self.limit == 0 {
            self.failures += 1;
            return Err(Failed);
        }
        Ok(self.bytes.len() as u64)
    }
}
