//! The DWARF sections of an image.

ghost use Rattle.std.specs.Prelude.{◌≡◌, ◌+◌, ◌≤◌, length};
ghost use Rattle.dwarf_source_frames.specs.DebugSections.{debug_section, debug_sections, is_named, section_bytes};
ghost use Rattle.macho_image.specs.SectionViews.{section_view};
ghost use Rattle.dwarf_source_frames.specs.SectionsViews.{sections_view};

use dwarf_encoding::u32_le_at;
use macho_image::{Image, Section};

/// The segment of a companion's DWARF sections.
const DWARF_SEGMENT: &[u8] = b"__DWARF";

/// The offset in `section_64` of the field `offset`, the offset of the section's bytes.
const SECTION_64_OFFSET: usize = 48;

/// The DWARF sections of an image. A section that the image lacks is empty. The fields have the names of the sections,
/// which are cut to 16 bytes.
#[derive(Clone, Copy)]
pub struct DebugSections<'a> {
    pub debug_info: &'a [u8],
    pub debug_abbrev: &'a [u8],
    pub debug_line: &'a [u8],
    pub debug_str: &'a [u8],
    pub debug_line_str: &'a [u8],
    pub debug_str_offs: &'a [u8],
    pub debug_addr: &'a [u8],
    pub debug_aranges: &'a [u8],
    pub debug_ranges: &'a [u8],
    pub debug_rnglists: &'a [u8],
}

/// Whether a section has this name.
fn is_named(section: &Section<'_>, name: &[u8]) -> bool
    ensures { result ≡ is_named name.now (section_view section.now) }
{
    section.segment == DWARF_SEGMENT && section.section == name
}

/// The bytes of a section, up to the end of the image.
fn section_bytes<'a>(image: &'a [u8], section: &Section<'a>) -> &'a [u8]
    requires { section.now.offset + 80 ≤ length image.now }
    ensures { result.now ≡ section_bytes image.now (section_view section.now) }
{
    let offset = u32_le_at(image, section.offset as usize + SECTION_64_OFFSET);
    let (_, from) = image.split_at(image.len().min(offset as usize));
    from.split_at(from.len().min(section.size as usize)).0
}

/// The bytes of the first section with this name; empty if there is none.
#[tactic(auto, unfolding(crate::specs::DebugSections::debug_section))]
fn debug_section<'a>(image: &Image<'a>, name: &[u8]) -> &'a [u8]
    ensures { result.now ≡ debug_section image.now name.now }
{
    for section in image.sections() {
        if is_named(&section, name) {
            return section_bytes(image.bytes(), &section);
        }
    }
    &[]
}

impl<'a> DebugSections<'a> {
    /// The DWARF sections of an image.
    pub fn of(image: &Image<'a>) -> DebugSections<'a>
        ensures { sections_view result ≡ debug_sections image.now }
    {
        DebugSections {
            debug_info: debug_section(image, b"__debug_info"),
            debug_abbrev: debug_section(image, b"__debug_abbrev"),
            debug_line: debug_section(image, b"__debug_line"),
            debug_str: debug_section(image, b"__debug_str"),
            debug_line_str: debug_section(image, b"__debug_line_str"),
            debug_str_offs: debug_section(image, b"__debug_str_offs"),
            debug_addr: debug_section(image, b"__debug_addr"),
            debug_aranges: debug_section(image, b"__debug_aranges"),
            debug_ranges: debug_section(image, b"__debug_ranges"),
            debug_rnglists: debug_section(image, b"__debug_rnglists"),
        }
    }
}
