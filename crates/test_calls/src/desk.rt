//! The surroundings of a case: files in memory, and the limits of its devices.

ghost use Rattle.std.specs.Prelude.{◌≡◌, [], None, option_map};
ghost use Rattle.std.specs.BTreeMap.{get_by_text};
ghost use Rattle.byte_device.specs.Disks.{IsOpened, file_of};

use byte_device::{CannotOpen, Placed, PlacedPieces, Source};
use heap_memory::{Heap, NoMemory};
use std::alloc::Global;
use std::io::ErrorKind;
use test_parts::{CaseFault, Limits, Store, StrictSource};

/// The archive type on which a case is tried.
#[derive(Clone, Copy, Debug)]
pub enum Tried {
    Plain,
    Indexed,
}

impl Tried {
    /// Both. The answers of the first are printed, and those of the other if they differ.
    pub const BOTH: [Tried; 2] = [Tried::Plain, Tried::Indexed];
}

/// The surroundings of a case.
#[derive(Clone, Copy)]
pub struct Desk<'a> {
    pub alloc: Global,
    pub store: &'a Store,
    pub limits: Limits<'a>,
    pub tried: Tried,
}

impl<'a> Desk<'a> {
    /// Memory with the growths and the bytes that are granted.
    pub fn heap(self) -> Result<Heap, NoMemory> {
        let heap = Heap::with_growths(self.alloc, self.limits.growths)?;
        heap.grant_bytes(self.limits.bytes);
        Ok(heap)
    }

    /// A file that is read, up to its cut.
    pub fn input(self, name: &str) -> Result<StrictSource<'a>, CannotOpen>
        ensures { self.entry.limits.cut ≡ None
            → IsOpened ⟦<StrictSource<'a> as Source>⟧.left
            ⟦<StrictSource<'a> as Source>⟧.failures (λ _. [])
            (file_of (option_map (λ v. v.items) (get_by_text self.entry.store.now.files name.now))) result }
    {
        let Some(bytes) = self.bytes(name) else {
            return Err(CannotOpen {
                reason: ErrorKind::NotFound.into(),
            });
        };
        let size = self.limits.pieces.max(1);
        Ok(StrictSource::new(bytes, size, self.limits.given_of(name)))
    }

    /// A file that is read at any offset, up to its cut.
    pub fn places(self, name: &str) -> Result<PlacedPieces<'a>, CannotOpen>
        ensures { self.entry.limits.cut ≡ None
            → IsOpened ⟦<PlacedPieces<'a> as Placed>⟧.whole
            ⟦<PlacedPieces<'a> as Placed>⟧.failures (λ _. [])
            (file_of (option_map (λ v. v.items) (get_by_text self.entry.store.now.files name.now))) result }
    {
        let Some(bytes) = self.bytes(name) else {
            return Err(CannotOpen {
                reason: ErrorKind::NotFound.into(),
            });
        };
        let size = self.limits.pieces.max(1);
        Ok(PlacedPieces::new(bytes, size, self.limits.given_of(name)))
    }

    /// The same for a file that must exist, and is read from its start.
    pub fn source(self, name: &str) -> Result<StrictSource<'a>, CaseFault> {
        self.input(name).ok().ok_or(CaseFault::BadLine)
    }

    /// The bytes of a file, up to its cut.
    pub fn bytes(self, name: &str) -> Option<&'a [u8]>
        ensures { self.entry.limits.cut ≡ None → option_map (λ b. b.now) result
            ≡ option_map (λ v. v.items) (get_by_text self.entry.store.now.files name.now) }
    {
        let bytes = self.store.bytes(name)?;
        let most = self.limits.most_of(name).min(bytes.len());
        Some(&bytes[..most])
    }
}
