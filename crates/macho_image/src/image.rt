//! An image as a whole.

ghost use Rattle.std.specs.Prelude.{◌≡◌, ◌*◌, ◌^◌, ◌≤◌, ◌<◌, IfOk, IfErr, length};
ghost use Rattle.std.specs.List.{AllByRecursion};
ghost use Rattle.std.specs.Option.{option_map};
ghost use Rattle.macho_image.specs.Commands.{commands, HasRoom};
ghost use Rattle.macho_image.specs.Contents.{uuid_of, symtab_of, arch_of, is_dsym_image, IsRead};
ghost use Rattle.macho_image.specs.Kinds.{load_commands};
ghost use Rattle.macho_image.specs.Fault.{IsImageFault, IsImage};
ghost use Rattle.macho_image.specs.Sections.{IsSectionOf, sections, section_of, text_base_of};

use crate::contents::read_load_commands;
use crate::fault::ImageFault;
use crate::header::{
    CPU_SUBTYPE_MASK, check_header, command_bytes, cpusubtype, cputype, filetype, ncmds,
};
use crate::load_command::LoadCommand;
use crate::load_commands::LoadCommands;
use crate::loader::{MACH_HEADER_64_LEN, MH_DSYM};
use crate::section::Section;
use crate::sections::Sections;
use crate::symtab_command::Symtab;
use std::marker::Model;
use uuid::Uuid;

/// A thin 64-bit image, which borrows its bytes. A contract sees these bytes.
#[derive(Drop)]
pub struct Image<'a> {
    bytes: &'a [u8],
    uuid: Uuid,
    symtab: Option<Symtab>,
}

impl<'a> Model for Image<'a> {
    ghost use Rattle.std.specs.Prelude.{ℕ, List};
    ghost use Rattle.macho_image.specs.Contents.{IsRead};

    ghost Value = { List ℕ };

    ghost view = { λ a. a.bytes.now };

    ghost invariant = { λ a. IsRead a.bytes.now a.uuid a.symtab };
}

impl<'a> Image<'a> {
    ghost use Rattle.macho_image.specs.SectionViews.{section_view};

    /// Reads an image in one pass over its load commands. The errors are those of `ImageFault`. Bytes may follow the
    /// last command, and each command may be longer than its structure; commands of other kinds are skipped.
    pub fn read(bytes: &'a [u8]) -> Result<Image<'a>, ImageFault>
        ensures faulty { IfErr result (λ fault. IsImageFault bytes.now fault) }
        ensures sound { IfOk result (λ _. IsImage bytes.now) }
        ensures bytes { IfOk result (λ image. image ≡ bytes.now) }
    {
        check_header(bytes)?;
        let contents = read_load_commands(
            command_bytes(bytes),
            MACH_HEADER_64_LEN as u32,
            ncmds(bytes),
        )?;
        let Some(uuid) = contents.uuid else {
            return Err(ImageFault::NoUuid);
        };
        Ok(Image {
            bytes,
            uuid,
            symtab: contents.symtab,
        })
    }

    /// The image of bytes that were read before, with the result of [`Image::parts`]. The commands are not read again.
    pub fn of_parts(bytes: &'a [u8], uuid: Uuid, symtab: Option<Symtab>) -> Image<'a>
        requires { IsRead bytes.now uuid symtab }
        ensures { result ≡ bytes.now }
    {
        Image {
            bytes,
            uuid,
            symtab,
        }
    }

    /// The results of reading, for a caller that keeps the bytes: [`Image::uuid`] and [`Image::symtab`].
    pub fn parts(&self) -> (Uuid, Option<Symtab>)
        ensures { IsRead self.now result.0 result.1 }
    {
        (self.uuid, self.symtab)
    }

    /// The same image again, with the same borrowed bytes.
    pub fn copy(&self) -> Image<'a>
        ensures { result ≡ self.now }
    {
        Image {
            bytes: self.bytes,
            uuid: self.uuid,
            symtab: self.symtab,
        }
    }

    /// All bytes of the image.
    pub fn bytes(&self) -> &'a [u8]
        ensures bytes { result.now ≡ self.now }
        ensures sound { IsImage self.now }
        ensures small { length self.now < 2 ^ 32 }
    {
        self.bytes
    }

    /// The UUID of the build: `uuid` of LC_UUID. A companion has the UUID of its image.
    pub fn uuid(&self) -> Uuid
        ensures { result ≡ uuid_of self.now }
    {
        self.uuid
    }

    /// The architecture: `cputype`, and `cpusubtype` without its capability bits, which may differ between an image and
    /// its companion.
    pub fn arch(&self) -> (u32, u32)
        ensures { result ≡ arch_of self.now }
    {
        (
            cputype(self.bytes),
            cpusubtype(self.bytes) & !CPU_SUBTYPE_MASK,
        )
    }

    /// Whether the image is a companion with debug information: its `filetype` is MH_DSYM.
    pub fn is_dsym(&self) -> bool
        ensures { result ≡ is_dsym_image self.now }
    {
        filetype(self.bytes) == MH_DSYM
    }

    /// The offsets and sizes of the symbol table and the string table; `None` if there is no LC_SYMTAB.
    pub fn symtab(&self) -> Option<Symtab>
        ensures { result ≡ symtab_of self.now }
    {
        self.symtab
    }

    /// The load commands, in the order of the file. Each is long enough for its kind.
    pub fn commands(&self) -> LoadCommands<'a>
        ensures all { result ≡ load_commands self.now }
        ensures room { AllByRecursion HasRoom (commands self.now) }
        ensures fit { 8 * length (commands self.now) ≤ length self.now }
    {
        LoadCommands::new(
            MACH_HEADER_64_LEN as u32,
            command_bytes(self.bytes),
            ncmds(self.bytes),
        )
    }

    /// The sections of all segments, in the order of the load commands. `Section::at` reads each of them again by its
    /// offset.
    #[tactic(auto, unfolding(crate::specs::Sections::sections))]
    pub fn sections(&self) -> Sections<'a>
        ensures all { result ≡ sections self.now }
        ensures each { AllByRecursion (IsSectionOf self.now) (sections self.now) }
        ensures fit { 80 * length (sections self.now) ≤ length self.now }
    {
        Sections::of_commands(self.commands())
    }

    /// The section with a number. The first is 1, as in `n_sect` of a symbol; `None` for 0 and past the last.
    pub fn section(&self, number: u8) -> Option<Section<'a>>
        ensures { option_map section_view result ≡ section_of self.now number }
    {
        if number == 0 {
            return None;
        }
        self.sections().nth(number as usize - 1)
    }

    /// `vmaddr` of the first segment named `__TEXT`: the address at which the image's text expects to be loaded; `None`
    /// if there is no such segment.
    pub fn text_base(&self) -> Option<u64>
        ensures { result ≡ text_base_of self.now }
    {
        for command in self.commands() {
            if let LoadCommand::Segment(segment) = command {
                if segment.is_text() {
                    return Some(segment.vmaddr());
                }
            }
        }
        None
    }
}
