//! Slices that answer for a key, and their answers.
ghost use Rattle.std.specs.Prelude.{◌≡◌, ◌∷◌, [], ◌++◌, ℕ, List};
ghost use Rattle.std.specs.Option.{option_map};
ghost use Rattle.macho_symbols.specs.Views.{found_view};
ghost use Rattle.archive_core.specs.Lookup.{IsOwn, IsOwnRow, Alone, file_address};
ghost use Rattle.archive_core.specs.Lookup.{own_view, own_row, answer_view};
ghost use Rattle.archive_core.specs.Find.{is_kind};
ghost use Rattle.archive_index.specs.InnerScan.{IsAnsweringOf};

use archive_core::{Answer, Digest, Own, Slice, Where};
use macho_symbols::Found;
use std::marker::Model;

// A slice that is looked up. A contract sees it as the slice's bytes.
#[derive(Drop)]
pub(crate) struct AskedSlice<'a> {
    slice: &'a Slice,
}

impl<'a> Model for AskedSlice<'a> {
    ghost use Rattle.std.specs.Prelude.{ℕ, List};

    ghost Value = { List ℕ };

    ghost view = { λ asked. asked.slice.now };
}

// The slices that answer, counted: if there is only one, it is kept.
#[derive(Drop)]
pub(crate) enum Answering<'a> {
    Nothing,
    One(AskedSlice<'a>),
    Several,
}

impl<'a> AskedSlice<'a> {
    // Wraps the slice.
    pub(crate) fn of(slice: &'a Slice) -> AskedSlice<'a>
        ensures { result ≡ slice.now }
    {
        AskedSlice { slice }
    }

    // The slice that is looked up.
    pub(crate) fn slice(&self) -> &'a Slice
        ensures { result.now ≡ self.now }
    {
        self.slice
    }

    // The answer of the slice for an address.
    pub(crate) fn own(&self, asked: Where) -> Own<'a>
        ensures { IsOwn self.now asked (own_view result) }
    {
        match file_address(self.slice, asked) {
            Some(address) => own_of(self.slice.nearest(address)),
            None => Own::NoSymbol,
        }
    }

    // The slice's digest, and its answer for an address.
    pub(crate) fn row(&self, asked: Where) -> (Digest, Own<'a>)
        ensures { IsOwnRow asked self.now (own_row result) }
    {
        (self.slice.digest(), self.own(asked))
    }
}

impl<'a> Answering<'a> {
    // The same with one more slice.
    pub(crate) fn and(self, slice: AskedSlice<'a>) -> Answering<'a>
        ensures { (slices : List (List ℕ)) → IsAnsweringOf self.entry slices
            → IsAnsweringOf result (slices ++ slice.entry ∷ []) }
    {
        match self {
            Answering::Nothing => Answering::One(slice),
            Answering::One(_) | Answering::Several => Answering::Several,
        }
    }
}

/// Whether a slice is a companion, or, without the flag, whether it is not one.
pub fn is_kind(dsym: bool, slice: &Slice) -> bool
    ensures { result ≡ is_kind dsym slice.now }
{
    slice.image().is_dsym() == dsym
}

// The answer of a slice with this nearest symbol.
fn own_of(found: Option<Found<'_>>) -> Own<'_>
    ensures { own_view result ≡ option_map found_view found.entry }
{
    match found {
        Some(found) => Own::Symbol(found),
        None => Own::NoSymbol,
    }
}

/// The address in a slice's file of an asked address.
pub fn file_address(slice: &Slice, asked: Where) -> Option<u64>
    ensures { result ≡ file_address slice.now asked }
{
    match asked {
        Where::File(address) => Some(address),
        // The load commands are read only for a loaded address.
        loaded => loaded.address_by(slice.image().text_base()),
    }
}

/// The answer of the only slice that answers.
pub fn answer_of_one(own: Own<'_>) -> Answer<'_>
    ensures { answer_view result ≡ Alone (own_view own.entry) }
{
    match own {
        Own::NoSymbol => Answer::NoSymbol,
        Own::Symbol(found) => Answer::Symbol(found),
    }
}
