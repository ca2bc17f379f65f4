//! The addresses at which the nearest candidate may change.

ghost use Rattle.std.specs.Prelude.{◌≡◌, ◌++◌, ℕ, List, IfOk, OnOk, map, flat_map};
ghost use Rattle.macho_image.specs.SectionViews.{section_view};
ghost use Rattle.macho_symbols.specs.InnerCandidates.{AreCandidates, AreTurns, ends_below};
ghost use Rattle.macho_symbols.specs.SectionNumbers.{AreSectionsOf};

use crate::candidate::Candidate;
use heap_memory::{Heap, NoMemory};
use macho_image::Section;

/// Adds the values of candidates.
fn push_values(turns: &mut Vec<u64, Heap>, candidates: &[Candidate]) -> Result<(), NoMemory>
    ensures { OnOk result (turns.new.items ≡ turns.old.items ++ map (λ c. c.value) candidates.now) }
{
    for candidate in candidates {
        turns.push(candidate.value)?;
    }
    Ok(())
}

/// Adds the first address of a section, and its end, if that is an address.
fn push_section(turns: &mut Vec<u64, Heap>, section: &Section<'_>) -> Result<(), NoMemory>
    ensures { OnOk result (turns.new.items ≡ turns.old.items ++ ends_below (section_view section.now)) }
{
    turns.push(section.addr)?;
    if let Some(end) = section.addr.checked_add(section.size) {
        turns.push(end)?;
    }
    Ok(())
}

/// Adds the first addresses and the ends of sections.
fn push_sections(turns: &mut Vec<u64, Heap>, sections: &[Section<'_>]) -> Result<(), NoMemory>
    ensures { OnOk result (turns.new.items
        ≡ turns.old.items ++ flat_map (λ s. ends_below (section_view s)) sections.now) }
{
    for section in sections {
        push_section(turns, section)?;
    }
    Ok(())
}

/// The addresses at which the nearest candidate may change, ascending.
pub(crate) fn collect_turns(
    heap: Heap,
    candidates: &[Candidate],
    sections: &[Section<'_>],
) -> Result<Vec<u64, Heap>, NoMemory>
    ensures { IfOk result (λ turns. (image : List ℕ) → AreCandidates image candidates.now
        → AreSectionsOf image sections.now → AreTurns image turns.items) }
{
    let mut turns = Vec::new(heap);
    push_values(&mut turns, candidates)?;
    push_sections(&mut turns, sections)?;
    // The values of candidates ascend, and only a few addresses of sections come after them: a sort by runs needs
    // little more time than one pass over them.
    turns.sort()?;
    turns.dedup();
    Ok(turns)
}
