//! The sections of all segments, one after another.

ghost use Rattle.std.specs.Prelude.{◌≡◌};
ghost use Rattle.std.specs.List.{filter_map, flat_map};
ghost use Rattle.macho_image.specs.Kinds.{segment_of};
ghost use Rattle.macho_image.specs.Sections.{sections_in};

use crate::load_command::LoadCommand;
use crate::load_commands::LoadCommands;
use crate::section::Section;
use crate::segment::SegmentSections;
use std::marker::Model;

/// The sections of all segments of an image, in the order of the load commands. A contract sees the list of the
/// sections that are left.
#[derive(Drop)]
pub struct Sections<'a> {
    of_segment: SegmentSections<'a>,
    commands: LoadCommands<'a>,
}

impl<'a> Model for Sections<'a> {
    ghost use Rattle.std.specs.Prelude.{List, ◌++◌};
    ghost use Rattle.std.specs.List.{filter_map, flat_map};
    ghost use Rattle.macho_image.specs.Kinds.{segment_of};
    ghost use Rattle.macho_image.specs.Sections.{SectionRecord, sections_in};

    ghost Value = { List SectionRecord };

    ghost view = { λ s. s.of_segment ++ flat_map sections_in (filter_map segment_of s.commands) };
}

impl<'a> Sections<'a> {
    /// The sections of these load commands.
    pub(crate) fn of_commands(commands: LoadCommands<'a>) -> Sections<'a>
        ensures { result ≡ flat_map sections_in (filter_map segment_of commands.entry) }
    {
        Sections {
            of_segment: SegmentSections::none(),
            commands,
        }
    }
}

impl<'a> Iterator for Sections<'a> {
    type Item = Section<'a>;

    ghost use Rattle.std.specs.Iterator.{YieldsFirstBy, item_count};
    ghost use Rattle.macho_image.specs.SectionViews.{section_view};

    ghost next_gives = { YieldsFirstBy section_view (λ s. s) };

    ghost remaining = { item_count (λ s. s) };

    fn next(&mut self) -> Option<Section<'a>> {
        'commands: loop {
            if let Some(section) = self.of_segment.next() {
                return Some(section);
            }
            if let LoadCommand::Segment(segment) = self.commands.next()? {
                self.of_segment = segment.sections();
            }
        }
    }
}
