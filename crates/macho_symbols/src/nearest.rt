//! The search by address.

ghost use Rattle.std.specs.Prelude.{◌≡◌};
ghost use Rattle.std.specs.Option.{option_map};
ghost use Rattle.macho_symbols.specs.Symbols.{strings_of};
ghost use Rattle.macho_symbols.specs.Nearest.{is_eligible};
ghost use Rattle.macho_symbols.specs.Found.{FindsNearest};
ghost use Rattle.macho_symbols.specs.Views.{tuple_of, found_view};
ghost use Rattle.macho_symbols.specs.InnerCandidates.{IsAt, IsLeastOrNone, eligible_at};

use crate::candidate::Candidate;
use crate::compared::ComparedNames;
use crate::found::Found;
use crate::scan::Scan;
use crate::symbols::Symbols;

impl<'a> Scan<'a> {
    /// Whether a candidate is eligible for an address: it is not above the address, and its section contains the
    /// address.
    #[tactic(auto, unfolding(crate::specs::Nearest::is_eligible, crate::specs::Views::tuple_of))]
    fn is_eligible(&self, candidate: &Candidate, address: u64) -> bool
        ensures { result ≡ is_eligible self.now address (tuple_of (strings_of self.now) candidate.now) }
    {
        candidate.value <= address && self.is_in_section(candidate.sect, address)
    }

    /// The candidate at an index, if it is eligible for an address.
    fn eligible_at(&self, index: usize, address: u64) -> Option<Candidate>
        ensures { result ≡ eligible_at self.now address index }
    {
        match self.candidate_at(index) {
            Some(candidate) if self.is_eligible(&candidate, address) => Some(candidate),
            _ => None,
        }
    }

    /// The first of the candidates that are eligible for an address.
    fn first_eligible(&self, address: u64) -> Option<Candidate>
        ensures { IsLeastOrNone (strings_of self.now) (IsAt (eligible_at self.now address)) result }
    {
        let names = ComparedNames::by_pieces(self.symbols.strings());
        let mut best = None;
        'entries: for index in 0..self.symbols.count() {
            best = Candidate::first_of(best, self.eligible_at(index, address), &names);
        }
        best
    }
}

impl<'a> Symbols<'a> {
    /// The nearest symbol of an address. Of the symbols that are not above the address and whose section contains it,
    /// it is the one with the greatest address; of several an external one, then the one with the least name, then the
    /// one with the least section number. The scan reads every entry once, and allocates no memory. The common bytes of
    /// names that overlap are read again for each of them; `AddressTable` avoids that.
    pub fn nearest_plain(&self, address: u64) -> Option<Found<'a>>
        ensures { FindsNearest self.now address (option_map found_view result) }
    {
        let scan = Scan::new(self);
        let candidate = scan.first_eligible(address)?;
        Some(scan.found(address, &candidate))
    }
}
