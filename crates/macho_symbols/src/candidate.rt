//! Candidates, the entries that a search can find, and their order.

ghost use Rattle.std.specs.Prelude.{◌≡◌};
ghost use Rattle.std.specs.Ordering.{ordering_then, nat_cmp, bool_cmp};
ghost use Rattle.std.specs.Cmp.Lexicographic.{slice_cmp};
ghost use Rattle.macho_symbols.specs.Symbols.{name_of};
ghost use Rattle.macho_symbols.specs.InnerCandidates.{first_of, is_before};

use crate::compared::ComparedNames;
use std::cmp::Ordering;

/// The parts of a candidate that searches use. Its name is `n_strx`: the offset in the string table.
#[derive(Clone, Copy)]
pub(crate) struct Candidate {
    pub(crate) value: u64,
    pub(crate) n_strx: u32,
    pub(crate) sect: u8,
    pub(crate) external: bool,
}

impl Candidate {
    /// Compares the names of two candidates. If both have the same offset, no name is read.
    fn compare_names(&self, other: &Candidate, names: &ComparedNames<'_>) -> Ordering
        ensures { result ≡ slice_cmp nat_cmp (name_of names.now self.now.n_strx)
            (name_of names.now other.now.n_strx) }
    {
        if self.n_strx == other.n_strx {
            return Ordering::Equal;
        }
        names.compare(self.n_strx, other.n_strx)
    }

    /// Compares the values, the greater first, and then external before local.
    fn compare_heads(&self, other: &Candidate) -> Ordering
        ensures { result ≡ ordering_then (nat_cmp other.now.value self.now.value)
            (bool_cmp other.now.external self.now.external) }
    {
        other
            .value
            .cmp(&self.value)
            .then(other.external.cmp(&self.external))
    }

    /// Whether it comes before another one. Names are read only if the values and kinds are equal.
    #[tactic(auto, unfolding(crate::specs::Views::tuple_of))]
    fn is_before(&self, other: &Candidate, names: &ComparedNames<'_>) -> bool
        ensures { result ≡ is_before names.now self.now other.now }
    {
        let heads = self.compare_heads(other);
        if heads.is_ne() {
            return heads.is_lt();
        }
        self.compare_names(other, names)
            .then(self.sect.cmp(&other.sect))
            .then(self.n_strx.cmp(&other.n_strx))
            .is_lt()
    }

    /// The first of two candidates, either of which may be missing.
    pub(crate) fn first_of(
        best: Option<Candidate>,
        next: Option<Candidate>,
        names: &ComparedNames<'_>,
    ) -> Option<Candidate>
        ensures { result ≡ first_of names.now best next }
    {
        let Some(candidate) = next else {
            return best;
        };
        match best {
            Some(kept) if !candidate.is_before(&kept, names) => best,
            _ => Some(candidate),
        }
    }
}
