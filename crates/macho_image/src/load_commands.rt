//! The load commands after the header, one after another.

ghost use Rattle.std.specs.Prelude.{◌≡◌, ◌+◌, ◌<◌, ◌^◌, length};
ghost use Rattle.std.specs.List.{AllByRecursion};
ghost use Rattle.macho_image.specs.Commands.{HasRoom, first_commands};
ghost use Rattle.macho_image.specs.Kinds.{load_commands_from};

use crate::load_command::{LoadCommand, split_command};
use std::marker::Model;

/// The load commands of an image, in order. A contract sees the list of the commands that are left.
#[derive(Drop)]
pub struct LoadCommands<'a> {
    offset: u32,
    rest: &'a [u8],
    left: u32,
}

impl<'a> Model for LoadCommands<'a> {
    ghost use Rattle.std.specs.Prelude.{List, ◌+◌, ◌<◌, ◌^◌, length};
    ghost use Rattle.std.specs.List.{AllByRecursion};
    ghost use Rattle.macho_image.specs.declared.load_command.LoadCommand.{LoadCommand};

    ghost Value = { List LoadCommand };

    ghost use Rattle.macho_image.specs.Commands.{HasRoom, first_commands};
    ghost use Rattle.macho_image.specs.Kinds.{load_commands_from};

    ghost view = { λ c. load_commands_from c.offset (first_commands c.left c.rest.now) };

    ghost invariant = { λ c. (c.offset + length c.rest.now < 2 ^ 32)
        × AllByRecursion HasRoom (first_commands c.left c.rest.now) };
}

impl<'a> LoadCommands<'a> {
    /// The first `count` commands of the bytes, which are at an offset of the image.
    pub(crate) fn new(offset: u32, bytes: &'a [u8], count: u32) -> LoadCommands<'a>
        requires room { AllByRecursion HasRoom (first_commands count bytes.now) }
        requires small { offset + length bytes.now < 2 ^ 32 }
        ensures { result ≡ load_commands_from offset (first_commands count bytes.now) }
    {
        LoadCommands {
            offset,
            rest: bytes,
            left: count,
        }
    }
}

#[tactic(auto, using(crate::proofs::Images::of_commands), unfolding(crate::specs::Kinds::load_commands_from))]
impl<'a> Iterator for LoadCommands<'a> {
    type Item = LoadCommand<'a>;

    ghost use Rattle.std.specs.Iterator.{YieldsFirst, item_count};

    ghost next_gives = { YieldsFirst (λ c. c) };

    ghost remaining = { item_count (λ c. c) };

    fn next(&mut self) -> Option<LoadCommand<'a>> {
        if self.left == 0 {
            return None;
        }
        let Some((bytes, rest)) = split_command(self.rest) else {
            self.left = 0;
            return None;
        };
        let command = LoadCommand::of(self.offset, bytes);
        self.offset += bytes.len() as u32;
        self.rest = rest;
        self.left -= 1;
        Some(command)
    }
}
