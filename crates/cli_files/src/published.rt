//! A published output.

ghost use Rattle.std.specs.Prelude.{string_bytes};
ghost use Rattle.cli_files.specs.FileCalls.{bytes_in};
ghost use Rattle.cli_files.specs.Publishing.{IsPublished};

use crate::file_calls::FileCalls;
use crate::replaceable::ReplaceRule;

/// The path of a published output, its rule of replacement, and the calls that were made for it.
#[derive(Drop)]
pub struct Published {
    pub path: String,
    pub replaces: ReplaceRule,
    pub calls: FileCalls,
    ghost whole: { ∥ IsPublished (string_bytes path) replaces (bytes_in calls.entries) calls.entries ∥₁ },
}
