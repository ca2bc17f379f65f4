//! The comparison of candidates' names: piece by piece, or by their order among the strings.

ghost use Rattle.std.specs.Prelude.{◌≡◌, ◌<◌, ◌^◌, IfOk, length};
ghost use Rattle.std.specs.Ordering.{nat_cmp};
ghost use Rattle.std.specs.Cmp.Lexicographic.{slice_cmp};
ghost use Rattle.macho_symbols.specs.Symbols.{name_of};

use crate::candidate::Candidate;
use crate::name::Name;
use crate::name_order::NameOrder;
use heap_memory::{Heap, NoMemory};
use std::cmp::Ordering;
use std::marker::Model;

/// A string table, and the order of its names if they are compared by it. A contract sees the table.
#[derive(Drop)]
pub(crate) struct ComparedNames<'a> {
    strings: &'a [u8],
    order: Option<NameOrder<'a>>,
}

impl<'a> Model for ComparedNames<'a> {
    ghost use Rattle.std.specs.Prelude.{ℕ, List, ◌≡◌, IfSome};

    ghost Value = { List ℕ };

    ghost view = { λ n. n.strings.now };

    ghost invariant = { λ n. IfSome n.order (λ o. o ≡ n.strings.now) };
}

/// Whether the names of the candidates whose value is that of the candidate before them, but whose `n_strx` is not,
/// have more bytes than the strings. Only names that overlap can. It reads at most twice the bytes of the strings. No
/// contract states the result: names compare the same by their order and piece by piece, and only the time differs.
fn is_long(strings: &[u8], candidates: &[Candidate]) -> bool {
    let mut left = strings.len();
    'candidates: for index in 1..candidates.len() {
        let (candidate, before) = (candidates[index], candidates[index - 1]);
        if candidate.value == before.value && candidate.n_strx != before.n_strx {
            let name = Name::at(strings, candidate.n_strx);
            let size = name.bytes().len();
            if left < size {
                return true;
            }
            left -= size;
        }
    }
    false
}

impl<'a> ComparedNames<'a> {
    /// The names of a string table, compared piece by piece.
    pub(crate) fn by_pieces(strings: &'a [u8]) -> ComparedNames<'a>
        ensures { result ≡ strings.now }
    {
        ComparedNames {
            strings,
            order: None,
        }
    }

    /// The names of candidates, which are sorted by value. The error is `NoMemory`.
    pub(crate) fn new(
        heap: Heap,
        strings: &'a [u8],
        candidates: &[Candidate],
    ) -> Result<ComparedNames<'a>, NoMemory>
        requires { length strings.now < 2 ^ 32 }
        ensures { IfOk result (λ names. names ≡ strings.now) }
    {
        if !is_long(strings, candidates) {
            return Ok(ComparedNames::by_pieces(strings));
        }
        let order = Some(NameOrder::new(heap, strings)?);
        Ok(ComparedNames { strings, order })
    }

    /// Compares the names at two offsets of the string table in byte order.
    pub(crate) fn compare(&self, n_strx: u32, other: u32) -> Ordering
        ensures { result ≡ slice_cmp nat_cmp (name_of self.now n_strx) (name_of self.now other) }
    {
        match &self.order {
            Some(order) if n_strx != 0 && other != 0 => order.compare(
                n_strx as usize,
                other as usize,
            ),
            _ => Name::at(self.strings, n_strx).compare(&Name::at(self.strings, other)),
        }
    }
}
