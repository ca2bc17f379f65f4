//! The values of an argument.

use archive_core::{ArchKey, Digest};
use std::slice;
use uuid::Uuid;

/// The values of an argument, by their number in a line.
#[derive(Debug, Drop)]
pub enum Amount<T> {
    One(T),
    /// Any number, in the order of the words: at least one of the last words, or any number after options.
    Several(Vec<T>),
    /// One that may be omitted.
    Perhaps(Option<T>),
    /// No value: whether the flag is present.
    Flag(bool),
}

/// The values of an argument, by the form of its words. A path is the word itself.
#[derive(Debug, Drop)]
pub enum Values {
    Texts(Amount<String>),
    Uuids(Amount<Uuid>),
    Archs(Amount<ArchKey>),
    Digests(Amount<Digest>),
    Numbers(Amount<u64>),
}

impl Values {
    ghost use Rattle.std.specs.Prelude.{◌≡◌, map, string_bytes};
    ghost use Rattle.cli_arguments.specs.ValuesView.{values_view};
    ghost use Rattle.cli_arguments.specs.Lines.{texts_of};

    /// The texts among them.
    pub fn texts(&self) -> &[String]
        ensures { map string_bytes result.now ≡ texts_of (values_view self.now) }
    {
        match self {
            Values::Texts(Amount::One(text) | Amount::Perhaps(Some(text))) => slice::from_ref(text),
            Values::Texts(Amount::Several(texts)) => texts,
            _ => &[],
        }
    }
}
