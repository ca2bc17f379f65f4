//! The offsets of the sections in an image, by number.

ghost use Rattle.std.specs.Prelude.{◌≡◌, IfOk, []};
ghost use Rattle.std.specs.Option.{option_map_or};
ghost use Rattle.macho_image.specs.Sections.{section_of};
ghost use Rattle.macho_symbols.specs.SectionPlaces.{ArePlaces};

use crate::nlist::{MAX_SECT, NO_SECT};
use heap_memory::{Heap, NoMemory};
use macho_image::{Image, Section};

/// The names of the segment and of the section with a number; empty if there is no such section.
pub(crate) fn section_names<'b>(places: &[u32], number: u8, image: &'b [u8]) -> (&'b [u8], &'b [u8])
    requires { ArePlaces image.now places.now }
    ensures segment { result.0.now ≡ option_map_or (λ s. s.segment) (section_of image.now number) [] }
    ensures section { result.1.now ≡ option_map_or (λ s. s.section) (section_of image.now number) [] }
{
    if number == NO_SECT {
        return (&[], &[]);
    }
    if number as usize > places.len() {
        return (&[], &[]);
    }
    let section = Section::at(image, places[number as usize - 1]);
    (section.segment, section.section)
}

/// The offset of the `section_64` of each section of an image that a symbol can name.
pub(crate) fn collect_places(heap: Heap, image: &Image<'_>) -> Result<Vec<u32, Heap>, NoMemory>
    ensures { IfOk result (λ places. ArePlaces image.now places.items) }
{
    let mut places = Vec::new(heap);
    for section in image.sections().take(MAX_SECT as usize) {
        places.push(section.offset)?;
    }
    Ok(places)
}
