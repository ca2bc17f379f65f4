//! The address that is asked for under a key, and the answer.
ghost use Rattle.std.specs.Prelude.{◌≡◌};
ghost use Rattle.archive_core.specs.Lookup.{address_by, unslid};

use crate::Digest;
use heap_memory::Heap;
use macho_symbols::Found;

/// An address of an image: in its file, or where it was loaded.
#[derive(Clone, Copy, Debug, PartialEq, Eq)]
pub enum Where {
    /// An address in the image's file.
    File(u64),
    /// An address of the loaded image: in the file it is `address - load` after the `vmaddr` of the segment `__TEXT`.
    Loaded {
        /// The address where the image's `__TEXT` was loaded.
        load: u64,
        /// An address in the loaded image.
        address: u64,
    },
}

impl Where {
    /// The address in the file, by the `vmaddr` of the file's `__TEXT`. `None` if a loaded address has none.
    pub fn address_by(self, base: Option<u64>) -> Option<u64>
        ensures { result ≡ address_by base self }
    {
        match self {
            Where::File(address) => Some(address),
            Where::Loaded { load, address } => unslid(base?, load, address),
        }
    }
}

/// The file address of a loaded address: `address - load + base`, in whole numbers; `None` if it is outside 64 bits.
fn unslid(base: u64, load: u64, address: u64) -> Option<u64>
    ensures { result ≡ unslid base load address }
{
    if load <= address {
        base.checked_add(address - load)
    } else {
        base.checked_sub(load - address)
    }
}

/// The answer of one slice for an address.
#[derive(Clone, Copy, Debug, PartialEq, Eq)]
pub enum Own<'a> {
    /// The slice has no nearest symbol for the address, or its file does not have the address.
    NoSymbol,
    /// Its nearest symbol.
    Symbol(Found<'a>),
}

/// The answer of an archive for an address under a key.
#[derive(Drop)]
pub enum Answer<'a> {
    /// No slice of the key answers.
    Unknown,
    /// One slice answers, and has no symbol for the address.
    NoSymbol,
    /// One slice answers: its nearest symbol.
    Symbol(Found<'a>),
    /// Several slices answer: the SHA-256 and the answer of each, in the order of their records.
    Conflict(Vec<(Digest, Own<'a>), Heap>),
}
