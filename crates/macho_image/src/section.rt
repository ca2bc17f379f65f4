//! `section_64`: a section of a segment.

ghost use Rattle.std.specs.Prelude.{◌≡◌, ◌+◌, ◌≤◌, length};
ghost use Rattle.macho_image.specs.Sections.{section_at, section_record};

use crate::name::name;
use crate::number::number64;

/// A section. Its addresses are the `size` addresses from `addr` on; as whole numbers they may pass the end of the
/// 64-bit space.
#[derive(Clone, Copy, Debug, PartialEq, Eq)]
pub struct Section<'a> {
    /// The offset of its `section_64` in the image, in bytes.
    pub offset: u32,
    /// `segname`: the name of its segment in the section itself, at most 16 bytes and without NUL.
    pub segment: &'a [u8],
    /// `sectname`: its own name, at most 16 bytes and without NUL.
    pub section: &'a [u8],
    /// Its first address.
    pub addr: u64,
    /// The number of its addresses.
    pub size: u64,
}

impl<'a> Section<'a> {
    ghost use Rattle.macho_image.specs.SectionViews.{section_view};

    /// The section whose `section_64` is at an offset of the image: `offset` of a section of that image.
    #[tactic(auto, unfolding(crate::specs::Sections::section_at))]
    pub fn at(image: &'a [u8], offset: u32) -> Section<'a>
        requires { offset + 80 ≤ length image.now }
        ensures { section_view result ≡ section_at image.now offset }
    {
        Section::first_of(offset, image.split_at(offset as usize).1)
    }

    /// The section in the first 80 bytes, which are at an offset of the image.
    #[tactic(auto, unfolding(crate::specs::Sections::section_record))]
    pub(crate) fn first_of(offset: u32, bytes: &'a [u8]) -> Section<'a>
        requires { 80 ≤ length bytes.now }
        ensures { section_view result ≡ section_record offset bytes.now }
    {
        Section {
            offset,
            segment: name(bytes, 16),
            section: name(bytes, 0),
            addr: number64(bytes, 32),
            size: number64(bytes, 40),
        }
    }
}
