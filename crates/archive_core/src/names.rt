//! The rows of a search for a name.
ghost use Rattle.std.specs.Prelude.{◌≡◌, ℕ, List, IfOk};
ghost use Rattle.sha2.specs.Sha256.{sha256};
ghost use Rattle.macho_symbols.specs.Views.{found_view};
ghost use Rattle.archive_core.specs.Valid.{key_of};
ghost use Rattle.archive_core.specs.Names.{key_cmp, place_cmp, name_cmp, name_row, name_view, owned_name_view};

use crate::{Digest, SliceKey};
use heap_memory::{Heap, NoMemory};
use macho_symbols::Found;
use std::cmp::Ordering;

/// A symbol with the name. The names of its section are borrowed from its slice.
#[derive(Clone, Copy, Debug, PartialEq, Eq)]
pub struct NameRow<'a> {
    /// The key of the slice.
    pub key: SliceKey,
    /// The SHA-256 of the slice's bytes.
    pub digest: Digest,
    /// `n_value`: the address of the symbol.
    pub address: u64,
    /// `n_sect`: the number of the section, from 1.
    pub sect: u8,
    /// `segname`: the name of the segment, as in the section.
    pub segment: &'a [u8],
    /// `sectname`: the name of the section.
    pub section: &'a [u8],
}

impl<'a> NameRow<'a> {
    /// The row of a symbol that was found in a slice with this key and digest.
    pub fn of(key: SliceKey, digest: Digest, found: Found<'a>) -> NameRow<'a>
        ensures { (slice : List ℕ) → key ≡ key_of slice → digest.0 ≡ sha256 slice
            → name_view result ≡ name_row slice (found_view found.entry) }
    {
        NameRow {
            key,
            digest,
            address: found.address,
            sect: found.sect,
            segment: found.segment,
            section: found.section,
        }
    }

    /// The row, with copies of its names. Fails only if memory runs out.
    pub fn own(&self, heap: &Heap) -> Result<OwnedNameRow, NoMemory>
        ensures { IfOk result (λ row. owned_name_view row ≡ name_view self.now) }
    {
        Ok(OwnedNameRow {
            key: self.key,
            digest: self.digest,
            address: self.address,
            sect: self.sect,
            segment: Vec::from_slice(heap.share(), self.segment)?,
            section: Vec::from_slice(heap.share(), self.section)?,
        })
    }

    /// Compares by key, then by digest, then by the symbol's address and section.
    pub fn compare(&self, other: &NameRow<'_>) -> Ordering
        ensures { result ≡ name_cmp (name_view self.now) (name_view other.now) }
    {
        self.compare_keys(other)
            .then(self.digest.0.cmp(&other.digest.0))
            .then(self.compare_places(other))
    }

    // Compares by key.
    fn compare_keys(&self, other: &NameRow<'_>) -> Ordering
        ensures { result ≡ key_cmp self.now.key other.now.key }
    {
        let first = &self.key;
        let second = &other.key;
        let arches = first
            .arch
            .cputype
            .cmp(&second.arch.cputype)
            .then(first.arch.cpusubtype.cmp(&second.arch.cpusubtype));
        first
            .uuid
            .as_bytes()
            .cmp(second.uuid.as_bytes())
            .then(arches)
    }

    // Compares by the symbol's address and section.
    fn compare_places(&self, other: &NameRow<'_>) -> Ordering
        ensures { result ≡ place_cmp (name_view self.now) (name_view other.now) }
    {
        let names = self
            .segment
            .cmp(other.segment)
            .then(self.section.cmp(other.section));
        self.address
            .cmp(&other.address)
            .then(self.sect.cmp(&other.sect).then(names))
    }
}

/// A symbol with the name, as in [`NameRow`]. It owns the names of its section, so that the slice may be dropped.
#[derive(Debug, Drop)]
pub struct OwnedNameRow {
    /// The key of the slice.
    pub key: SliceKey,
    /// The SHA-256 of the slice's bytes.
    pub digest: Digest,
    /// `n_value`: the address of the symbol.
    pub address: u64,
    /// `n_sect`: the number of the section, from 1.
    pub sect: u8,
    /// `segname`: the name of the segment, as in the section.
    pub segment: Vec<u8, Heap>,
    /// `sectname`: the name of the section.
    pub section: Vec<u8, Heap>,
}

impl OwnedNameRow {
    /// The row, borrowed.
    pub fn lend(&self) -> NameRow<'_>
        ensures { name_view result ≡ owned_name_view self.now }
    {
        NameRow {
            key: self.key,
            digest: self.digest,
            address: self.address,
            sect: self.sect,
            segment: &self.segment,
            section: &self.section,
        }
    }
}
