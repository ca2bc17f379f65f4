//! The entries of a symbol table, as an iterator.

use crate::nlist::NLIST_64_LEN;
use std::marker::Model;

/// The entries that are left. A contract sees their list.
#[derive(Drop)]
pub(crate) struct Entries<'a> {
    rest: &'a [u8],
    left: u32,
}

impl<'a> Model for Entries<'a> {
    ghost use Rattle.std.specs.Prelude.{ℕ, List, ◌≤◌, ◌*◌, length};
    ghost use Rattle.macho_symbols.specs.Symbols.{entries};

    ghost Value = { List (List ℕ) };

    ghost view = { λ e. entries e.left e.rest.now };

    ghost invariant = { λ e. 16 * e.left ≤ length e.rest.now };
}

impl<'a> Entries<'a> {
    ghost use Rattle.std.specs.Prelude.{◌≡◌, ◌≤◌, ◌*◌, length};
    ghost use Rattle.macho_symbols.specs.Symbols.{entries};

    /// The first `count` entries of the bytes.
    pub(crate) fn new(bytes: &'a [u8], count: u32) -> Entries<'a>
        requires { 16 * count ≤ length bytes.now }
        ensures { result ≡ entries count bytes.now }
    {
        Entries {
            rest: bytes,
            left: count,
        }
    }
}

#[tactic(auto, using(crate::proofs::EntryLemmas::of_entries))]
impl<'a> Iterator for Entries<'a> {
    type Item = &'a [u8];

    ghost use Rattle.std.specs.Iterator.{YieldsFirstRef, item_count};

    ghost next_gives = { YieldsFirstRef (λ e. e) };

    ghost remaining = { item_count (λ e. e) };

    fn next(&mut self) -> Option<&'a [u8]> {
        if self.left == 0 {
            return None;
        }
        let (entry, rest) = self.rest.split_at(NLIST_64_LEN);
        self.rest = rest;
        self.left -= 1;
        Some(entry)
    }
}
