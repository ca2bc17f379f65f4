//! The symbols that a scan over the entries reads, and the sections that they name by number.

ghost use Rattle.std.specs.Prelude.{◌≡◌, ◌<◌, ◌≤◌, ◌^◌, [], IfOk, IfSome, length};
ghost use Rattle.std.specs.Option.{option_map, option_map_or};
ghost use Rattle.macho_image.specs.Sections.{section_of};
ghost use Rattle.macho_image.specs.SectionViews.{section_view};
ghost use Rattle.macho_symbols.specs.Symbols.{strings_of, is_in_section, name_in, is_candidate, candidate_in};
ghost use Rattle.macho_symbols.specs.Found.{found_of};
ghost use Rattle.macho_symbols.specs.InnerCandidates.{AreCandidates, is_placed, numbered_at, numbered_in};
ghost use Rattle.macho_symbols.specs.Views.{name_view, tuple_of, found_view};

use crate::candidate::Candidate;
use crate::found::Found;
use crate::name::Name;
use crate::nlist::{N_EXT, N_SECT, N_STAB, N_TYPE, n_sect, n_strx, n_type, n_value};
use crate::section_numbers::{N_SECT_COUNT, is_inside, sections_by_number};
use crate::symbols::Symbols;
use heap_memory::{Heap, NoMemory};
use macho_image::Section;
use std::marker::Model;

/// The symbols of an image with its sections by number, which are collected once at the beginning of a scan. A contract
/// sees the bytes of the image.
#[derive(Drop)]
pub(crate) struct Scan<'a> {
    pub(crate) symbols: Symbols<'a>,
    sections: [Option<Section<'a>>; N_SECT_COUNT],
}

impl<'a> Model for Scan<'a> {
    ghost use Rattle.std.specs.Prelude.{ℕ, List};
    ghost use Rattle.macho_symbols.specs.SectionNumbers.{AreByNumber};

    ghost Value = { List ℕ };

    ghost view = { λ s. s.symbols };

    ghost invariant = { λ s. AreByNumber s.symbols s.sections };
}

impl<'a> Scan<'a> {
    /// A scan over these symbols.
    pub(crate) fn new(symbols: &Symbols<'a>) -> Scan<'a>
        ensures { result ≡ symbols.now }
    {
        Scan {
            symbols: symbols.copy(),
            sections: sections_by_number(&symbols.image),
        }
    }

    /// The section with a number.
    pub(crate) fn section(&self, number: u8) -> Option<Section<'a>>
        ensures { option_map section_view result ≡ section_of self.now number }
    {
        self.sections[number as usize]
    }

    /// Whether an address is in the section with a number.
    #[tactic(auto, unfolding(crate::specs::Symbols::is_in_section))]
    pub(crate) fn is_in_section(&self, number: u8, address: u64) -> bool
        ensures { result ≡ is_in_section self.now number address }
    {
        match self.section(number) {
            Some(section) => is_inside(&section, address),
            None => false,
        }
    }

    /// Whether an entry is a candidate if it has a name.
    #[tactic(auto, unfolding(crate::specs::InnerCandidates::is_placed))]
    pub(crate) fn is_placed(&self, entry: &[u8]) -> bool
        requires { 16 ≤ length entry.now }
        ensures { result ≡ is_placed self.now entry.now }
    {
        n_type(entry) & N_STAB == 0
            && n_type(entry) & N_TYPE == N_SECT
            && self.is_in_section(n_sect(entry), n_value(entry))
    }

    /// The name of an entry.
    #[tactic(auto, unfolding(crate::specs::Symbols::name_in))]
    fn name(&self, entry: &[u8]) -> Name<'a>
        requires { 16 ≤ length entry.now }
        ensures { name_view result ≡ name_in self.now entry.now }
    {
        Name::at(self.symbols.strings(), n_strx(entry))
    }

    /// Whether an entry is a candidate.
    fn is_candidate(&self, entry: &[u8]) -> bool
        requires { 16 ≤ length entry.now }
        ensures { result ≡ is_candidate self.now entry.now }
    {
        self.is_placed(entry) && !self.name(entry).is_empty()
    }

    /// The candidate of an entry; `None` if the entry is none.
    #[tactic(auto, unfolding(crate::specs::InnerCandidates::numbered_in, crate::specs::Views::tuple_of, crate::specs::Symbols::candidate_in, crate::specs::Symbols::tuple_in, crate::specs::Symbols::name_in))]
    pub(crate) fn candidate(&self, entry: &[u8]) -> Option<Candidate>
        requires { 16 ≤ length entry.now }
        ensures numbered { result ≡ numbered_in self.now entry.now }
        ensures tuple { option_map (tuple_of (strings_of self.now)) result ≡ candidate_in self.now entry.now }
        ensures small { IfSome result (λ candidate. candidate.sect < 2 ^ 8) }
    {
        if !self.is_candidate(entry) {
            return None;
        }
        Some(Candidate {
            value: n_value(entry),
            n_strx: n_strx(entry),
            sect: n_sect(entry),
            external: n_type(entry) & N_EXT == 1,
        })
    }

    /// The candidate at an index; `None` if there is no such entry, or it is no candidate.
    pub(crate) fn candidate_at(&self, index: usize) -> Option<Candidate>
        ensures numbered { result ≡ numbered_at self.now index }
        ensures small { IfSome result (λ candidate. candidate.sect < 2 ^ 8) }
    {
        self.candidate(self.symbols.entry(index)?)
    }

    /// The entries that are candidates, in the order of the symbol table.
    pub(crate) fn candidates(&self, heap: Heap) -> Result<Vec<Candidate, Heap>, NoMemory>
        ensures { IfOk result (λ candidates. AreCandidates self.now candidates.items) }
    {
        let mut candidates = Vec::new(heap);
        'entries: for index in 0..self.symbols.count() {
            if let Some(candidate) = self.candidate_at(index) {
                candidates.push(candidate)?;
            }
        }
        Ok(candidates)
    }

    /// The names of the segment and of the section with a number; empty if there is no such section.
    fn section_names(&self, number: u8) -> (&'a [u8], &'a [u8])
        ensures segment { result.0.now ≡ option_map_or (λ s. s.segment) (section_of self.now number) [] }
        ensures section { result.1.now ≡ option_map_or (λ s. s.section) (section_of self.now number) [] }
    {
        match self.section(number) {
            Some(section) => (section.segment, section.section),
            None => (&[], &[]),
        }
    }

    /// The result for a candidate in a search by address.
    #[tactic(auto, unfolding(crate::specs::Found::found_of, crate::specs::Views::tuple_of))]
    pub(crate) fn found(&self, address: u64, candidate: &Candidate) -> Found<'a>
        requires { candidate.now.value ≤ address }
        ensures { found_view result ≡ found_of self.now address (tuple_of (strings_of self.now) candidate.now) }
    {
        let (segment, section) = self.section_names(candidate.sect);
        Found {
            name: Name::at(self.symbols.strings(), candidate.n_strx).bytes(),
            address: candidate.value,
            offset: address - candidate.value,
            sect: candidate.sect,
            segment,
            section,
        }
    }
}
