//! `segment_command_64`: the command LC_SEGMENT_64, and the sections after it.

ghost use Rattle.std.specs.Prelude.{◌≡◌, ◌*◌, ◌+◌, ◌<◌, ◌≤◌, ◌^◌, [], length, nat_lt};
ghost use Rattle.macho_image.specs.Layout.{name_at, u64_le_at};
ghost use Rattle.macho_image.specs.Commands.{nsects};
ghost use Rattle.macho_image.specs.Sections.{is_text, sections_in};

use crate::loader::{SECTION_64_LEN, SEG_TEXT, SEGMENT_COMMAND_64_LEN};
use crate::name::name;
use crate::number::{number32, number64};
use crate::section::Section;
use std::marker::Model;

/// `nsects`.
fn nsects(segment: &[u8]) -> u32
    requires { 72 ≤ length segment.now }
    ensures { result ≡ nsects segment.now }
{
    number32(segment, 64)
}

/// Whether a segment is too short for its sections.
pub(crate) fn is_short(segment: &[u8]) -> bool
    ensures { result ≡ nat_lt (length segment.now) (72 + 80 * nsects segment.now) }
{
    if segment.len() < SEGMENT_COMMAND_64_LEN {
        return true;
    }
    segment.len() < SEGMENT_COMMAND_64_LEN + SECTION_64_LEN * nsects(segment) as usize
}

/// A segment, long enough for its sections. A contract sees its offset in the image, and its bytes.
#[derive(Drop)]
pub struct SegmentCommand64<'a> {
    offset: u32,
    bytes: &'a [u8],
}

impl<'a> Model for SegmentCommand64<'a> {
    ghost use Rattle.std.specs.Prelude.{◌+◌, ◌*◌, ◌<◌, ◌≤◌, ◌^◌, length};
    ghost use Rattle.macho_image.specs.Commands.{SegmentRecord, nsects};

    ghost Value = { SegmentRecord };

    ghost view = { λ s. record { offset = s.offset; bytes = s.bytes.now } };

    ghost invariant = { λ s. (72 + 80 * nsects s.bytes.now ≤ length s.bytes.now)
        × (s.offset + length s.bytes.now < 2 ^ 32) };
}

impl<'a> SegmentCommand64<'a> {
    /// The segment with these bytes, which are at an offset of the image.
    pub(crate) fn of(offset: u32, bytes: &'a [u8]) -> SegmentCommand64<'a>
        requires room { 72 + 80 * nsects bytes.now ≤ length bytes.now }
        requires small { offset + length bytes.now < 2 ^ 32 }
        ensures offset { result.offset ≡ offset }
        ensures bytes { result.bytes ≡ bytes.now }
    {
        SegmentCommand64 { offset, bytes }
    }

    /// `segname`: its name, at most 16 bytes and without NUL.
    pub fn name(&self) -> &'a [u8]
        ensures { result.now ≡ name_at self.now.bytes 8 }
    {
        name(self.bytes, 8)
    }

    /// Whether its name is SEG_TEXT.
    #[tactic(auto, unfolding(crate::specs::Sections::is_text))]
    pub(crate) fn is_text(&self) -> bool
        ensures { result ≡ is_text self.now }
    {
        self.name() == SEG_TEXT
    }

    /// `vmaddr`: its first address.
    pub fn vmaddr(&self) -> u64
        ensures { result ≡ u64_le_at self.now.bytes 24 }
    {
        number64(self.bytes, 24)
    }

    /// Its sections, `nsects` of them.
    #[tactic(auto, unfolding(crate::specs::Sections::sections_in))]
    pub fn sections(&self) -> SegmentSections<'a>
        ensures { result ≡ sections_in self.now }
    {
        SegmentSections {
            offset: self.offset + SEGMENT_COMMAND_64_LEN as u32,
            rest: self.bytes.split_at(SEGMENT_COMMAND_64_LEN).1,
            left: nsects(self.bytes),
        }
    }
}

/// The sections of one segment. A contract sees the list of the sections that are left.
#[derive(Drop)]
pub struct SegmentSections<'a> {
    offset: u32,
    rest: &'a [u8],
    left: u32,
}

impl<'a> Model for SegmentSections<'a> {
    ghost use Rattle.std.specs.Prelude.{List, ◌+◌, ◌<◌, ◌≤◌, ◌*◌, ◌^◌, length};
    ghost use Rattle.macho_image.specs.Sections.{SectionRecord, section_records};

    ghost Value = { List SectionRecord };

    ghost view = { λ s. section_records s.left s.offset s.rest.now };

    ghost invariant = { λ s. (80 * s.left ≤ length s.rest.now) × (s.offset + length s.rest.now < 2 ^ 32) };
}

impl<'a> SegmentSections<'a> {
    /// An iterator without sections.
    #[tactic(auto, unfolding(crate::specs::Sections::section_records))]
    pub(crate) fn none() -> SegmentSections<'a>
        ensures { result ≡ [] }
    {
        SegmentSections {
            offset: 0,
            rest: &[],
            left: 0,
        }
    }
}

#[tactic(auto, using(crate::proofs::SectionLemmas::of_sections))]
impl<'a> Iterator for SegmentSections<'a> {
    type Item = Section<'a>;

    ghost use Rattle.std.specs.Iterator.{YieldsFirstBy, item_count};
    ghost use Rattle.macho_image.specs.SectionViews.{section_view};

    ghost next_gives = { YieldsFirstBy section_view (λ s. s) };

    ghost remaining = { item_count (λ s. s) };

    fn next(&mut self) -> Option<Section<'a>> {
        if self.left == 0 {
            return None;
        }
        let section = Section::first_of(self.offset, self.rest);
        self.offset += SECTION_64_LEN as u32;
        self.rest = self.rest.split_at(SECTION_64_LEN).1;
        self.left -= 1;
        Some(section)
    }
}
