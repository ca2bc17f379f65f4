//! Slices: checked bytes, borrowed or owned.
ghost use Rattle.std.specs.Prelude.{◌≡◌, IfOk, IfErr, OnOk, length, nat_lt};
ghost use Rattle.sha2.specs.Sha256.{sha256};
ghost use Rattle.std.specs.Option.{option_map};
ghost use Rattle.macho_symbols.specs.Fault.{HasSymbols};
ghost use Rattle.macho_symbols.specs.Found.{FindsNearest, named};
ghost use Rattle.macho_symbols.specs.Views.{found_view};
ghost use Rattle.archive_core.specs.Valid.{IsValid, IsSliceFault, IsAdmitFault, IsCheckedOf, key_of};

use crate::{AdmitFault, ArchKey, Digest, SliceFault, SliceKey};
use heap_memory::{Heap, NoMemory};
use macho_image::{Image, Symtab};
use macho_symbols::{AddressTable, Found, Symbols};
use sha2::{Digest as _, Sha256};
use std::marker::Model;

/// Facts of a slice, so that its bytes are read once: its key and the offsets of its symbols, from its check, and its
/// digest, once it was computed and kept.
#[derive(Clone, Copy, Debug)]
pub struct SliceFacts {
    key: SliceKey,
    symtab: Option<Symtab>,
    digest: Option<Digest>,
}

/// A slice whose bytes are borrowed: the bytes of a valid image with valid symbols, and their facts. A contract sees it
/// as its bytes.
///
/// The load commands are read again only by calls that need them.
#[derive(Drop)]
pub struct CheckedSlice<'a> {
    bytes: &'a [u8],
    facts: SliceFacts,
}

impl<'a> Model for CheckedSlice<'a> {
    ghost use Rattle.std.specs.Prelude.{ℕ, List};
    ghost use Rattle.archive_core.specs.Valid.{IsCheckedOf};

    ghost Value = { List ℕ };

    ghost view = { λ slice. slice.bytes.now };

    ghost invariant = { λ slice. IsCheckedOf slice.bytes.now slice.facts };
}

/// A slice that an archive keeps: the bytes of a valid image with valid symbols, owned. A contract sees it as its
/// bytes.
///
/// The facts are kept with the bytes: every comparison of records begins with the key, and every lookup reads the
/// symbols. A slice that is looked up often may have a table of addresses, in a box of its own, so that a slice without
/// one is small.
#[derive(Drop)]
pub struct Slice {
    bytes: Vec<u8, Heap>,
    facts: SliceFacts,
    table: Option<Box<AddressTable, Heap>>,
}

impl Model for Slice {
    ghost use Rattle.std.specs.Prelude.{ℕ, List};
    ghost use Rattle.archive_core.specs.Valid.{IsCheckedOf};

    ghost Value = { List ℕ };

    ghost use Rattle.std.specs.Prelude.{MatchOption};
    ghost use Rattle.macho_symbols.specs.Table.{IsTableOf};

    ghost view = { λ slice. slice.bytes.items };

    ghost invariant = { λ slice.
        IsCheckedOf slice.bytes.items slice.facts
        × MatchOption slice.table (Unit {0}) (λ table. IsTableOf table.value slice.bytes.items) };
}

impl<'a> CheckedSlice<'a> {
    /// The slice of bytes that [`Slice::check`] has accepted, with the facts of that check.
    pub fn of_checked(bytes: &'a [u8], facts: SliceFacts) -> CheckedSlice<'a>
        requires { IsCheckedOf bytes.now facts }
        ensures { result ≡ bytes.now }
    {
        CheckedSlice { bytes, facts }
    }

    /// The bytes.
    pub fn bytes(&self) -> &'a [u8]
        ensures bytes { result.now ≡ self.now }
        ensures valid { IsValid self.now }
    {
        self.bytes
    }

    /// The facts, for a caller that takes the bytes over: [`Slice::of_checked`].
    pub fn facts(&self) -> SliceFacts
        ensures { IsCheckedOf self.now result }
    {
        self.facts
    }

    /// The key of the slice.
    pub fn key(&self) -> SliceKey
        ensures { result ≡ key_of self.now }
    {
        self.facts.key
    }

    /// The SHA-256 of the bytes; it is computed if it is not kept.
    pub fn digest(&self) -> Digest
        ensures digest { result.0 ≡ sha256 self.now }
        ensures valid { IsValid self.now }
    {
        match self.facts.digest {
            Some(digest) => digest,
            None => Digest(Sha256::digest(self.bytes)),
        }
    }

    /// Keeps the digest among the facts. No other result depends on it.
    pub fn keep_digest(&mut self)
        ensures { self.new ≡ self.old }
    {
        self.facts.digest = Some(self.digest());
    }

    /// The image.
    pub fn image(&self) -> Image<'a>
        ensures { result ≡ self.now }
    {
        Image::of_parts(self.bytes, self.facts.key.uuid, self.facts.symtab)
    }

    /// The symbols of the image.
    pub fn symbols(&self) -> Symbols<'a>
        ensures { result ≡ self.now }
    {
        let image = Image::of_parts(self.bytes, self.facts.key.uuid, self.facts.symtab);
        Symbols::of_read(&image)
    }

    /// Whether a symbol of the slice has the name. Not inlined: a scan needs 16 KiB on the stack, and if there is no
    /// memory for a growing stack, the program ends without a message.
    #[inline(never)]
    pub fn has_name(&self, name: &[u8]) -> bool
        ensures { result ≡ nat_lt 0 (length (named self.now name.now)) }
    {
        let mut names = self.symbols().named(name);
        names.next().is_some()
    }

    /// A slice with a copy of the bytes. Fails only if memory runs out.
    pub fn admit(&self, heap: Heap) -> Result<Slice, NoMemory>
        ensures { IfOk result (λ slice. slice ≡ self.now) }
    {
        let bytes = Vec::from_slice(heap, self.bytes)?;
        Ok(Slice::of_checked(bytes, self.facts))
    }
}

impl Slice {
    /// Checks whether the bytes are a slice, and returns it. Allocates no memory.
    ///
    /// # Errors
    ///
    /// - `SliceFault::Image`: the first fault of the image;
    /// - `SliceFault::Symbols`: the bytes are an image; the first fault of its symbols.
    pub fn check(bytes: &[u8]) -> Result<CheckedSlice<'_>, SliceFault>
        ensures valid { OnOk result (IsValid bytes.now) }
        ensures slice { IfOk result (λ slice. slice ≡ bytes.now) }
        ensures faulty { IfErr result (IsSliceFault bytes.now) }
    {
        let image = match Image::read(bytes) {
            Ok(image) => image,
            Err(fault) => return Err(SliceFault::Image(fault)),
        };
        match Symbols::read(&image) {
            Ok(_) => Ok(CheckedSlice {
                bytes,
                facts: facts_in(&image),
            }),
            Err(fault) => Err(SliceFault::Symbols(fault)),
        }
    }

    /// A slice with a copy of the bytes. They are checked before memory is allocated.
    pub fn admit(heap: Heap, bytes: &[u8]) -> Result<Slice, AdmitFault>
        ensures valid { OnOk result (IsValid bytes.now) }
        ensures slice { IfOk result (λ slice. slice ≡ bytes.now) }
        ensures faulty { IfErr result (IsAdmitFault bytes.now) }
    {
        let checked = match Slice::check(bytes) {
            Ok(checked) => checked,
            Err(fault) => return Err(AdmitFault::Slice(fault)),
        };
        match checked.admit(heap) {
            Ok(slice) => Ok(slice),
            Err(NoMemory) => Err(AdmitFault::OutOfMemory),
        }
    }

    /// The slice of bytes that [`Slice::check`] has accepted, with the facts of that check. The bytes are moved, not
    /// copied.
    pub fn of_checked(bytes: Vec<u8, Heap>, facts: SliceFacts) -> Slice
        requires { IsCheckedOf bytes.items facts }
        ensures { result ≡ bytes.items }
    {
        Slice {
            bytes,
            facts,
            table: None,
        }
    }

    /// The slice, borrowed.
    pub fn lend(&self) -> CheckedSlice<'_>
        ensures { result ≡ self.now }
    {
        CheckedSlice {
            bytes: &self.bytes,
            facts: self.facts,
        }
    }

    /// A copy of the slice. Fails only if memory runs out.
    pub fn copy(&self, heap: Heap) -> Result<Slice, NoMemory>
        ensures { IfOk result (λ slice. slice ≡ self.now) }
    {
        self.lend().admit(heap)
    }

    /// The bytes.
    pub fn bytes(&self) -> &[u8]
        ensures bytes { result.now ≡ self.now }
        ensures valid { IsValid self.now }
    {
        self.lend().bytes()
    }

    /// The key of the slice.
    pub fn key(&self) -> SliceKey
        ensures { result ≡ key_of self.now }
    {
        self.facts.key
    }

    /// The SHA-256 of the bytes; it is computed if it is not kept.
    pub fn digest(&self) -> Digest
        ensures digest { result.0 ≡ sha256 self.now }
        ensures valid { IsValid self.now }
    {
        self.lend().digest()
    }

    /// Keeps the facts of the slice. No other result depends on them.
    pub fn keep(&mut self, facts: SliceFacts)
        requires { IsCheckedOf self.old facts }
        ensures { self.new ≡ self.old }
    {
        self.facts = facts;
    }

    /// Builds the table of addresses, if there is none. No other result depends on it. Fails only if memory runs out.
    pub fn keep_table(&mut self, heap: &Heap) -> Result<(), NoMemory>
        ensures { self.new ≡ self.old }
    {
        if self.table.is_some() {
            return Ok(());
        }
        let table = AddressTable::build(heap.share(), &self.symbols())?;
        self.table = Some(Box::new(heap.share(), table)?);
        Ok(())
    }

    /// Keeps the digest, so that it is computed once. No other result depends on it.
    pub fn keep_digest(&mut self)
        ensures { self.new ≡ self.old }
    {
        self.facts.digest = Some(self.digest());
    }

    /// The nearest symbol of an address in the slice's file, from the table, or by a scan if there is none.
    pub fn nearest(&self, address: u64) -> Option<Found<'_>>
        ensures { FindsNearest self.now address (option_map found_view result) }
    {
        match &self.table {
            Some(table) => table.nearest(address, &self.bytes),
            None => self.symbols().nearest_plain(address),
        }
    }

    /// The image. Allocates no memory.
    pub fn image(&self) -> Image<'_>
        ensures { result ≡ self.now }
    {
        self.lend().image()
    }

    /// The symbols of the image. Allocates no memory.
    pub fn symbols(&self) -> Symbols<'_>
        ensures { result ≡ self.now }
    {
        self.lend().symbols()
    }
}

// The facts of an image whose symbols can be read.
#[tactic(auto, unfolding(crate::specs::Valid::key_of))]
fn facts_in(image: &Image<'_>) -> SliceFacts
    requires { HasSymbols image.now }
    ensures { IsCheckedOf image.now result }
{
    let (uuid, symtab) = image.parts();
    let (cputype, cpusubtype) = image.arch();
    SliceFacts {
        key: SliceKey {
            uuid,
            arch: ArchKey {
                cputype,
                cpusubtype,
            },
        },
        symtab,
        digest: None,
    }
}
