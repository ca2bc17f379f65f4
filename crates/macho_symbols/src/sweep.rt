//! The rows of an image, from its first turn to its last.

ghost use Rattle.std.specs.Prelude.{◌≡◌, ◌≤◌, ◌<◌, ◌+◌, ◌-◌, ℕ, List, IfOk, IfSome, Some, None, MatchOption};
ghost use Rattle.std.specs.Prelude.{Contains, length, slice_get, slice_index_or, slice_set};
ghost use Rattle.macho_symbols.specs.Symbols.{strings_of};
ghost use Rattle.macho_symbols.specs.Steps.{AreSteps};
ghost use Rattle.macho_symbols.specs.InnerCandidates.{AreAbove, AreByValue, AreCandidates, AreFirstsOf, AreNumbered};
ghost use Rattle.macho_symbols.specs.InnerCandidates.{AreSwept, AreUpTo, IsLeastOrNone, IsEligibleAmong};
ghost use Rattle.macho_symbols.specs.SectionNumbers.{AreSectionsOf};
ghost use Rattle.macho_symbols.specs.InnerCandidates.{first_of, row_saying};
ghost use Rattle.macho_symbols.specs.declared.candidate.Candidate.{Candidate};

use crate::candidate::Candidate;
use crate::compared::ComparedNames;
use crate::row::Row;
use crate::scan::Scan;
use crate::section_numbers::{collect_sections, is_inside};
use crate::symbols::Symbols;
use crate::turns::collect_turns;
use heap_memory::{Heap, NoMemory};
use macho_image::Section;

impl Row {
    /// The row of a turn, with the nearest candidate there.
    fn saying(start: u64, nearest: Option<Candidate>) -> Row
        ensures { result ≡ row_saying start nearest }
    {
        match nearest {
            Some(candidate) => Row {
                start,
                value: candidate.value,
                n_strx: candidate.n_strx,
                sect: candidate.sect,
            },
            None => Row {
                start,
                value: 0,
                n_strx: 0,
                sect: 0,
            },
        }
    }
}

/// Adds a candidate to the first candidates of the sections.
fn note_candidate(firsts: &mut [Option<Candidate>], candidate: Candidate, names: &ComparedNames<'_>)
    requires some { 0 < candidate.sect }
    requires within { candidate.sect ≤ length firsts.old }
    ensures { firsts.new ≡ slice_set firsts.old (candidate.sect - 1)
        (first_of names.now (slice_index_or firsts.old (candidate.sect - 1) None) (Some candidate)) }
{
    let index = candidate.sect as usize - 1;
    firsts[index] = Candidate::first_of(firsts[index], Some(candidate), names);
}

/// The candidate at an index; `None` if there is none, or it is above an address.
fn not_above(candidates: &[Candidate], index: usize, address: u64) -> Option<Candidate>
    ensures { MatchOption result ((c : Candidate) → slice_get candidates.now index ≡ Some c → address < c.value)
        (λ c. (slice_get candidates.now index ≡ Some c) × (c.value ≤ address)) }
{
    let candidate = *candidates.get(index)?;
    if candidate.value > address {
        return None;
    }
    Some(candidate)
}

/// Notes the candidates from an index on that are not above an address. It returns the index after them, and the first
/// of those at the address itself, if there is any.
fn note_up_to(
    firsts: &mut [Option<Candidate>],
    candidates: &[Candidate],
    names: &ComparedNames<'_>,
    from: usize,
    address: u64,
) -> (usize, Option<Candidate>)
    requires from { from ≤ length candidates.now }
    requires numbered { AreNumbered candidates.now (length firsts.old) }
    requires sorted { AreByValue candidates.now }
    requires firsts { AreFirstsOf names.now candidates.now from firsts.old }
    ensures within { result.0 ≤ length candidates.now }
    ensures firsts { AreFirstsOf names.now candidates.now result.0 firsts.new }
    ensures below { AreUpTo candidates.now from address → AreUpTo candidates.now result.0 address }
    ensures above { AreAbove candidates.now result.0 address }
    ensures best { IfSome result.1 (λ best. Contains candidates.now best × (best.value ≡ address)) }
{
    let mut index = from;
    let mut best = None;
    'noting: while let Some(candidate) = not_above(candidates, index, address) {
        note_candidate(firsts, candidate, names);
        if candidate.value == address {
            best = Candidate::first_of(best, Some(candidate), names);
        }
        index += 1;
    }
    (index, best)
}

/// The first of `best`, if there is one, and of the first candidates of the sections that contain an address.
fn first_at(
    sections: &[Section<'_>],
    firsts: &[Option<Candidate>],
    names: &ComparedNames<'_>,
    address: u64,
    best: Option<Candidate>,
) -> Option<Candidate>
    requires { length firsts.now ≡ length sections.now }
    ensures { (image : List ℕ) (candidates : List Candidate) (count : ℕ) → AreSectionsOf image sections.now
        → names.now ≡ strings_of image → AreCandidates image candidates
        → AreFirstsOf names.now candidates count firsts.now → AreUpTo candidates count address
        → AreAbove candidates count address → IfSome best (λ c. Contains candidates c × (c.value ≡ address))
        → IsLeastOrNone names.now (IsEligibleAmong image candidates address) result }
{
    let mut best = best;
    'sections: for index in 0..sections.len() {
        if is_inside(&sections[index], address) {
            best = Candidate::first_of(best, firsts[index], names);
        }
    }
    best
}

/// The rows of these turns.
fn rows_of(
    heap: Heap,
    sections: &[Section<'_>],
    names: &ComparedNames<'_>,
    candidates: &[Candidate],
    turns: &[u64],
    firsts: &mut [Option<Candidate>],
) -> Result<Vec<Row, Heap>, NoMemory>
    requires long { length firsts.old ≡ length sections.now }
    requires numbered { AreNumbered candidates.now (length firsts.old) }
    requires sorted { AreByValue candidates.now }
    requires firsts { AreFirstsOf names.now candidates.now 0 firsts.old }
    ensures { IfOk result (λ rows. (image : List ℕ)
        → AreSwept image names.now sections.now candidates.now turns.now → AreSteps image rows.items) }
{
    let mut rows = Vec::with_capacity(heap, turns.len())?;
    let mut noted = 0;
    'turns: for start in turns {
        let (count, best) = note_up_to(firsts, candidates, names, noted, *start);
        noted = count;
        let nearest = first_at(sections, firsts, names, *start, best);
        rows.push(Row::saying(*start, nearest))?;
    }
    Ok(rows)
}

/// The rows of an image: one at each turn, with the nearest candidate there. It needs 24 bytes for each candidate and
/// 24 for each row, or 16 for each turn while the turns are sorted; and up to two for each byte of the strings, if
/// names that are compared overlap. The error is `NoMemory`.
pub fn steps(heap: Heap, symbols: &Symbols<'_>) -> Result<Vec<Row, Heap>, NoMemory>
    ensures { IfOk result (λ rows. AreSteps symbols.now rows.items) }
{
    let scan = Scan::new(symbols);
    let sections = collect_sections(heap.share(), &symbols.image)?;
    let mut candidates = scan.candidates(heap.share())?;
    candidates.sort_unstable_by_key(|candidate| candidate.value);
    let names = ComparedNames::new(heap.share(), symbols.strings(), &candidates)?;
    let turns = collect_turns(heap.share(), &candidates, &sections)?;
    let mut firsts = vec![in heap.share(); None; sections.len()]?;
    rows_of(heap, &sections, &names, &candidates, &turns, &mut firsts)
}
