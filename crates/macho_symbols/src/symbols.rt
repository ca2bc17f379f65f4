//! The symbol table of an image.

ghost use Rattle.std.specs.Prelude.{◌≡◌, ◌*◌, ◌^◌, ◌<◌, ◌≤◌, IfOk, IfErr, IfSome, length, option_map, slice_get};
ghost use Rattle.std.specs.List.{AllByRecursion};
ghost use Rattle.macho_symbols.specs.Nlist.{IsEntry};
ghost use Rattle.macho_symbols.specs.Symbols.{table_of, entries, entries_of, strings_of};
ghost use Rattle.macho_symbols.specs.Fault.{IsSymbolFault, HasSymbols};

use crate::entries::Entries;
use crate::fault::SymbolFault;
use crate::name::strings_in;
use crate::nlist::NLIST_64_LEN;
use macho_image::{Image, Symtab};
use std::marker::Model;

/// The symbols of an image, which borrow its bytes. A contract sees these bytes.
#[derive(Drop)]
pub struct Symbols<'a> {
    pub(crate) image: Image<'a>,
    pub(crate) table: Symtab,
}

impl<'a> Model for Symbols<'a> {
    ghost use Rattle.std.specs.Prelude.{ℕ, List};
    ghost use Rattle.macho_symbols.specs.Views.{IsRead};

    ghost Value = { List ℕ };

    ghost view = { λ s. s.image };

    ghost invariant = { λ s. IsRead s.image s.table };
}

impl<'a> Symbols<'a> {
    /// Reads the symbols of an image. The errors are those of `SymbolFault`, for its LC_SYMTAB. An image without an
    /// LC_SYMTAB has no symbols. No entry is read, so no entry is a fault.
    pub fn read(image: &Image<'a>) -> Result<Symbols<'a>, SymbolFault>
        ensures faulty { IfErr result (λ fault. IsSymbolFault image.now fault) }
        ensures sound { IfOk result (λ _. HasSymbols image.now) }
        ensures bytes { IfOk result (λ symbols. symbols ≡ image.now) }
    {
        let table = table_of(image);
        let len = image.bytes().len() as u64;
        let entries_len = NLIST_64_LEN as u64 * u64::from(table.nsyms);
        if table.nsyms > 0 && len < u64::from(table.symoff) + entries_len {
            return Err(SymbolFault::SymbolsOutside);
        }
        if table.strsize > 0 && len < u64::from(table.stroff) + u64::from(table.strsize) {
            return Err(SymbolFault::StringsOutside);
        }
        Ok(Symbols::of_read(image))
    }

    /// The symbols of an image that [`Symbols::read`] accepted before. Nothing is tested again.
    pub fn of_read(image: &Image<'a>) -> Symbols<'a>
        requires { HasSymbols image.now }
        ensures { result ≡ image.now }
    {
        Symbols {
            image: image.copy(),
            table: table_of(image),
        }
    }

    /// The same symbols again, with the same borrowed bytes.
    pub fn copy(&self) -> Symbols<'a>
        ensures { result ≡ self.now }
    {
        Symbols {
            image: self.image.copy(),
            table: self.table,
        }
    }

    /// The bytes from the first entry on.
    #[tactic(auto, unfolding(crate::specs::Symbols::entries))]
    fn entry_bytes(&self) -> &'a [u8]
        ensures room { 16 * (table_of self.now).nsyms ≤ length result.now }
        ensures value { entries (table_of self.now).nsyms result.now ≡ entries_of self.now }
    {
        if self.table.nsyms == 0 {
            return &[];
        }
        self.image.bytes().split_at(self.table.symoff as usize).1
    }

    /// The entries, in the order of the table.
    pub(crate) fn entries(&self) -> Entries<'a>
        ensures all { result ≡ entries_of self.now }
        ensures each { AllByRecursion IsEntry (entries_of self.now) }
        ensures fit { 16 * length (entries_of self.now) ≤ length self.now }
        ensures few { length (entries_of self.now) < 2 ^ 32 }
    {
        Entries::new(self.entry_bytes(), self.table.nsyms)
    }

    /// The number of entries.
    pub(crate) fn count(&self) -> usize
        ensures { result ≡ length (entries_of self.now) }
    {
        self.table.nsyms as usize
    }

    /// The entry at an index; `None` if there is no such entry.
    pub(crate) fn entry(&self, index: usize) -> Option<&'a [u8]>
        ensures entry { option_map (λ entry. entry.now) result ≡ slice_get (entries_of self.now) index }
        ensures long { IfSome result (λ entry. 16 ≤ length entry.now) }
    {
        if index >= self.table.nsyms as usize {
            return None;
        }
        let from = NLIST_64_LEN * index;
        Some(&self.entry_bytes()[from..from + NLIST_64_LEN])
    }

    /// The string table.
    #[tactic(auto, unfolding(crate::specs::Symbols::strings_of))]
    pub(crate) fn strings(&self) -> &'a [u8]
        ensures is { result.now ≡ strings_of self.now }
        ensures few { length result.now < 2 ^ 32 }
    {
        strings_in(self.image.bytes(), &self.table)
    }
}

/// The offsets and sizes of the tables of an image; all 0 if it has no LC_SYMTAB.
#[tactic(auto, unfolding(crate::specs::Symbols::table_of))]
fn table_of(image: &Image<'_>) -> Symtab
    ensures { result ≡ table_of image.now }
{
    image.symtab().unwrap_or(Symtab {
        symoff: 0,
        nsyms: 0,
        stroff: 0,
        strsize: 0,
    })
}

/// The string table of an image, up to the end of the image.
#[tactic(auto, unfolding(crate::specs::Symbols::strings_of))]
pub fn strings_of<'a>(image: &Image<'a>) -> &'a [u8]
    ensures is { result.now ≡ strings_of image.now }
    ensures few { length result.now < 2 ^ 32 }
{
    strings_in(image.bytes(), &table_of(image))
}
