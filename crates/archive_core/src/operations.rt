//! The operations of an archive, and the order of records.
ghost use Rattle.std.specs.Prelude.{◌≡◌, IfOk};
ghost use Rattle.std.specs.Ordering.{nat_cmp};
ghost use Rattle.std.specs.Cmp.Lexicographic.{slice_cmp};
ghost use Rattle.archive_core.specs.Record.{IsOperation, record_bytes, borrowed_bytes, operation_borrowed};
ghost use Rattle.archive_core.specs.Record.{admission, retirement_record};
ghost use Rattle.archive_core.specs.declared.operations.Operation.TheVariants.{Retire};
ghost use Rattle.archive_core.specs.Find.{key_in};
ghost use Rattle.archive_core.specs.Valid.{key_of};

use crate::keys::compare_keys;
use crate::{CheckedSlice, Digest, Slice, SliceKey};
use heap_memory::{Heap, NoMemory};
use std::cmp::Ordering;

/// An operation of an archive.
#[derive(Drop)]
pub enum Operation {
    /// Admits the slice, under its own key.
    Admit(Slice),
    /// Retires the slices with that key and that digest, whether they were admitted before, are admitted later or
    /// never.
    Retire(SliceKey, Digest),
}

/// A borrowed operation, from an archive that holds it or from a text.
#[derive(Drop)]
pub enum Record<'a> {
    /// Admits the slice, under its own key.
    Admit(CheckedSlice<'a>),
    /// Retires the slices with that key and that digest.
    Retire(SliceKey, Digest),
}

/// The retirement of the slices with the key and the digest.
pub fn retirement(key: SliceKey, digest: Digest) -> Operation
    ensures is { result ≡ Retire key digest }
    ensures operation { IsOperation (Retire key digest) }
{
    Operation::Retire(key, digest)
}

impl Operation {
    /// A copy of the operation. Fails only if memory runs out.
    pub fn copy(&self, heap: Heap) -> Result<Operation, NoMemory>
        ensures { IfOk result (λ operation. operation ≡ self.now) }
    {
        self.lend().copy(heap)
    }

    /// The operation, borrowed.
    pub fn lend(&self) -> Record<'_>
        ensures record { borrowed_bytes result ≡ record_bytes self.now }
        ensures operation { operation_borrowed result ≡ self.now }
    {
        match self {
            Operation::Admit(slice) => Record::Admit(slice.lend()),
            Operation::Retire(key, digest) => Record::Retire(*key, *digest),
        }
    }

    /// Builds the table of addresses of the admitted slice, if it has none. Fails only if memory runs out.
    pub fn keep_table(&mut self, heap: &Heap) -> Result<(), NoMemory>
        ensures { self.new ≡ self.old }
    {
        match self {
            Operation::Admit(slice) => slice.keep_table(heap),
            Operation::Retire(_, _) => Ok(()),
        }
    }

    /// Keeps the digest of the admitted slice, so that it is computed once.
    pub fn keep_digest(&mut self)
        ensures { self.new ≡ self.old }
    {
        if let Operation::Admit(slice) = self {
            slice.keep_digest();
        }
    }

    /// Compares the records of two operations, byte by byte, without building them.
    pub fn compare(&self, other: &Operation) -> Ordering
        ensures { result ≡ slice_cmp nat_cmp (record_bytes self.now) (record_bytes other.now) }
    {
        match self {
            Operation::Admit(slice) => match other {
                Operation::Admit(that) => {
                    compare_admissions(&slice.key(), slice.bytes(), &that.key(), that.bytes())
                }
                Operation::Retire(_, _) => Ordering::Greater,
            },
            Operation::Retire(key, digest) => match other {
                Operation::Admit(_) => Ordering::Less,
                Operation::Retire(that, other) => compare_retirements(key, digest, that, other),
            },
        }
    }

    /// The key of the operation.
    pub fn key(&self) -> SliceKey
        ensures { result ≡ key_in self.now }
    {
        match self {
            Operation::Admit(slice) => slice.key(),
            Operation::Retire(key, _) => *key,
        }
    }
}

impl<'a> Record<'a> {
    /// The same operation, owned: its slice is copied, and not checked again. Fails only if memory runs out.
    pub fn copy(&self, heap: Heap) -> Result<Operation, NoMemory>
        ensures { IfOk result (λ operation. operation ≡ operation_borrowed self.now) }
    {
        match self {
            Record::Admit(slice) => Ok(Operation::Admit(slice.admit(heap)?)),
            Record::Retire(key, digest) => Ok(Operation::Retire(*key, *digest)),
        }
    }

    /// Compares two records, byte by byte, without building them.
    pub fn compare(&self, other: &Record<'_>) -> Ordering
        ensures { result ≡ slice_cmp nat_cmp (borrowed_bytes self.now) (borrowed_bytes other.now) }
    {
        match self {
            Record::Admit(slice) => match other {
                Record::Admit(that) => {
                    compare_admissions(&slice.key(), slice.bytes(), &that.key(), that.bytes())
                }
                Record::Retire(_, _) => Ordering::Greater,
            },
            Record::Retire(key, digest) => match other {
                Record::Admit(_) => Ordering::Less,
                Record::Retire(that, other) => compare_retirements(key, digest, that, other),
            },
        }
    }
}

// Compares the records of two retirements.
fn compare_retirements(key: &SliceKey, digest: &Digest, that: &SliceKey, other: &Digest) -> Ordering
    ensures { result
        ≡ slice_cmp nat_cmp (retirement_record key.now digest.now.0) (retirement_record that.now other.now.0) }
{
    let keys = compare_keys(key, that);
    if keys.is_ne() {
        return keys;
    }
    digest.0.cmp(&other.0)
}

// Compares two admissions by the fields of their records after the tag: key, length, bytes.
fn compare_admissions(key: &SliceKey, bytes: &[u8], that: &SliceKey, other: &[u8]) -> Ordering
    requires key { key.now ≡ key_of bytes.now }
    requires that { that.now ≡ key_of other.now }
    ensures { result ≡ slice_cmp nat_cmp (admission bytes.now) (admission other.now) }
{
    let keys = compare_keys(key, that);
    if keys.is_ne() {
        return keys;
    }
    let lengths = bytes.len().cmp(&other.len());
    if lengths.is_ne() {
        return lengths;
    }
    bytes.cmp(other)
}
