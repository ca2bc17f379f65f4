//! The sections of an image by the numbers that a symbol can name.

ghost use Rattle.std.specs.Prelude.{◌≡◌, IfOk};
ghost use Rattle.macho_image.specs.Sections.{is_inside};
ghost use Rattle.macho_image.specs.SectionViews.{section_view};
ghost use Rattle.macho_symbols.specs.SectionNumbers.{AreByNumber, AreSectionsOf};

use crate::nlist::MAX_SECT;
use heap_memory::{Heap, NoMemory};
use macho_image::{Image, Section};

/// The number of values of `n_sect`, with NO_SECT.
pub(crate) const N_SECT_COUNT: usize = MAX_SECT as usize + 1;

/// The sections of an image by number, from one walk over the load commands.
pub(crate) fn sections_by_number<'a>(image: &Image<'a>) -> [Option<Section<'a>>; N_SECT_COUNT]
    ensures { AreByNumber image.now result }
{
    let mut by_number = [None; N_SECT_COUNT];
    let mut sections = image.sections();
    for number in 1..N_SECT_COUNT {
        by_number[number] = sections.next();
    }
    by_number
}

/// The sections of an image that a symbol can name, from number 1 on.
pub fn collect_sections<'a>(
    heap: Heap,
    image: &Image<'a>,
) -> Result<Vec<Section<'a>, Heap>, NoMemory>
    ensures { IfOk result (λ all. AreSectionsOf image.now all.items) }
{
    let mut all = Vec::new(heap);
    for section in image.sections().take(MAX_SECT as usize) {
        all.push(section)?;
    }
    Ok(all)
}

/// Whether an address is in a section, whose end may pass 2^64.
pub(crate) fn is_inside(section: &Section<'_>, address: u64) -> bool
    ensures { result ≡ is_inside address (section_view section.now) }
{
    section.addr <= address && address - section.addr < section.size
}
