//! Devices that fail at calls that no caller has to make: for no bytes, again after the end, or with no bytes. Also a
//! target for a text.

ghost use Rattle.std.specs.Prelude.{◌≡◌, ◌<◌, None, Some, [], false, if◌then◌else◌};

use byte_device::{Failed, Pieces, Short, Sink, Source, Target};
use heap_memory::Heap;
use std::mem;

/// The bytes of a file, a few at a time, once.
#[derive(Drop)]
pub struct StrictSource<'a> {
    pieces: Pieces<'a>,
    is_ended: bool,
    failures: u64,
}

impl<'a> StrictSource<'a> {
    /// A device that will return these bytes, at most `size` at a time, and at most `limit` in all before it fails.
    pub fn new(bytes: &'a [u8], size: usize, limit: usize) -> Self
        requires { 0 < size }
        ensures left { ⟦<StrictSource<'a> as Source>⟧.left result ≡ Some bytes.now }
        ensures failures { ⟦<StrictSource<'a> as Source>⟧.failures result ≡ 0 }
    {
        StrictSource {
            pieces: Pieces::new(bytes, size, limit),
            is_ended: false,
            failures: 0,
        }
    }
}

impl<'a> Source for StrictSource<'a> {
    ghost left = { λ s. ⟦<Pieces<'a> as Source>⟧.left s.pieces };

    ghost failures = { λ s. s.failures };

    fn pull(&mut self, buf: &mut [u8]) -> Result<usize, Failed> {
        if self.failures == u64::MAX {
            return Err(Failed);
        }
        if !self.is_ended && !buf.is_empty() {
            if let Ok(n) = self.pieces.pull(buf) {
                self.is_ended = n == 0;
                return Ok(n);
            }
        }
        self.failures += 1;
        Err(Failed)
    }
}

/// Bytes in memory, up to a limit.
#[derive(Drop)]
pub struct StrictSink {
    bytes: Short,
    failures: u64,
}

impl StrictSink {
    /// An empty device that accepts `limit` bytes before it fails.
    pub fn new(heap: Heap, limit: usize) -> Self
        ensures held { ⟦<StrictSink as Sink>⟧.held result ≡ Some [] }
        ensures failures { ⟦<StrictSink as Sink>⟧.failures result ≡ 0 }
    {
        StrictSink {
            bytes: Short::new(heap, limit),
            failures: 0,
        }
    }

    /// The bytes in it.
    pub fn as_slice(&self) -> &[u8]
        ensures { ⟦<StrictSink as Sink>⟧.held self.now ≡ Some result.now }
    {
        self.bytes.as_slice()
    }

    /// Exchanges the bytes in it.
    fn exchange(&mut self, bytes: &mut Short)
        ensures held { ⟦<StrictSink as Sink>⟧.held self.new ≡ ⟦<Short as Sink>⟧.held bytes.old }
        ensures bytes { ⟦<Short as Sink>⟧.held bytes.new ≡ ⟦<StrictSink as Sink>⟧.held self.old }
        ensures failures { self.new.failures ≡ self.old.failures }
    {
        mem::swap(&mut self.bytes, bytes);
    }
}

/// A target in memory, at which a text is published once.
#[derive(Drop)]
pub struct Shelf {
    bytes: Short,
    is_open: bool,
    is_published: bool,
    failures: u64,
    // It has no bytes before publication.
    ghost empty: { is_published ≡ false → ⟦<Short as Sink>⟧.held bytes ≡ Some [] },
}

impl Shelf {
    /// A target at which nothing was published. Publishing succeeds only if it is open.
    pub fn new(heap: Heap, is_open: bool) -> Self
        ensures published { ⟦<Shelf as Target>⟧.published result ≡ None }
        ensures failures { ⟦<Shelf as Target>⟧.failures result ≡ 0 }
    {
        Shelf {
            bytes: Short::new(heap, 0),
            is_open,
            is_published: false,
            failures: 0,
        }
    }

    /// The published bytes, if any.
    pub fn published(&self) -> Option<&[u8]> {
        if self.is_published {
            Some(self.bytes.as_slice())
        } else {
            None
        }
    }
}

impl Target for Shelf {
    type Draft = StrictSink;

    ghost published = { λ s. if s.is_published then ⟦<Short as Sink>⟧.held s.bytes else None };

    ghost failures = { λ s. s.failures };

    fn publish(&mut self, draft: &mut StrictSink) -> Result<(), Failed> {
        if self.failures == u64::MAX {
            return Err(Failed);
        }
        if !self.is_open || self.is_published {
            self.failures += 1;
            return Err(Failed);
        }
        draft.exchange(&mut self.bytes);
        self.is_published = true;
        Ok(())
    }
}

impl Sink for StrictSink {
    ghost held = { λ s. ⟦<Short as Sink>⟧.held s.bytes };

    ghost failures = { λ s. s.failures };

    fn push(&mut self, bytes: &[u8]) -> Result<usize, Failed> {
        if self.failures == u64::MAX {
            return Err(Failed);
        }
        if !bytes.is_empty() {
            if let Ok(n) = self.bytes.push(bytes) {
                return Ok(n);
            }
        }
        self.failures += 1;
        Err(Failed)
    }
}
