//! The numbers that a sink returned for the names of a unit's links.

ghost use Rattle.std.specs.Prelude.{[], ◌≡◌, ◌<◌, ℕ, IfOk, OnOk, Some, length, slice_get};
ghost use Rattle.dwarf_frame_changes.specs.Given.{Takes};
ghost use Rattle.dwarf_frame_changes.specs.Taking.{KeepsNumbers};
ghost use Rattle.dwarf_frame_changes.specs.UnitNumbers.{AreNameNumbers};
ghost use Rattle.dwarf_functions.specs.LinkViews.{link_view};
ghost use Rattle.dwarf_functions.specs.NameNumbers.{AreNamesNumbered};
ghost use Rattle.dwarf_functions.specs.declared.links.Link.{Link};

use crate::sink::FrameSink;
use dwarf_functions::{Link, Links};
use heap_memory::{Heap, NoMemory};

/// The sink's numbers of names, by the unit's own numbers of names.
#[derive(Drop)]
pub(crate) struct Names {
    by_number: Vec<Option<u32>, Heap>,
}

impl Names {
    /// `count` names without numbers.
    pub fn new(heap: Heap, count: usize) -> Result<Names, NoMemory>
        ensures count { IfOk result (λ names. length names.by_number.items ≡ count) }
        ensures none { IfOk result (λ names. (n number : ℕ)
            → slice_get names.by_number.items n ≡ Some (Some number) → ⊥) }
    {
        Ok(Names {
            by_number: vec![in heap; None; count]?,
        })
    }

    /// The number of the name of the link at an index, which is then kept.
    pub fn number_of_name<'a, T: FrameSink<'a>>(
        &mut self,
        links: &Links<'a>,
        index: usize,
        sink: &mut T,
    ) -> Result<u32, NoMemory>
        requires index { index < length links.now.links.items }
        requires numbered { AreNamesNumbered links.now.name_count links.now.links.items }
        requires known { AreNameNumbers (T.numbers_name sink.old) links.now self.old }
        ensures is { IfOk result (λ number. (link : Link) → slice_get links.now.links.items index ≡ Some link
            → T.numbers_name sink.new number (link_view link).name) }
        ensures known { OnOk result (AreNameNumbers (T.numbers_name sink.new) links.now self.new) }
        ensures names { KeepsNumbers (T.numbers_name sink.old) (T.numbers_name sink.new) }
        ensures paths { KeepsNumbers (T.numbers_path sink.old) (T.numbers_path sink.new) }
        ensures frames { KeepsNumbers (T.numbers_frames sink.old) (T.numbers_frames sink.new) }
        ensures taken { Takes (T.has_received sink.old) (T.has_received sink.new) [] }
    {
        let link: Link<'a> = links.links[index];
        if let Some(known) = self.by_number[link.name_number] {
            return Ok(known);
        }
        let number = sink.name(link.name)?;
        self.by_number[link.name_number] = Some(number);
        Ok(number)
    }
}
