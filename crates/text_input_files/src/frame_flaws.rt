//! The flaw of a line without a frame.

ghost use Rattle.std.specs.Prelude.{◌≡◌};
ghost use Rattle.uuid.specs.Text.{parsed};
ghost use Rattle.text_values.specs.Lines.{fields, parts};
ghost use Rattle.text_values.specs.Words.{arch_of};
ghost use Rattle.text_input_files.specs.Frames.{load_of};
ghost use Rattle.text_input_files.specs.FrameFlaws.{fields_flaw, field_flaw, frame_flaw};

use crate::frame_fields::{four_fields, read_load};
use archive_core::ArchKey;
use std::str;
use text_values::{LineFlaw, Word, line_flaw};
use uuid::Uuid;

/// The flaw of a line without a frame.
#[derive(Clone, Copy, Debug, PartialEq, Eq)]
pub enum FrameFlaw {
    /// The whole line is faulty, whatever its fields are.
    Line(LineFlaw),
    /// It has fewer or more than four fields.
    FieldCount,
    /// The field with this name is not valid. Those before it are.
    Uuid,
    Arch,
    Load,
    Address,
}

pub fn frame_flaw(line: &[u8]) -> FrameFlaw
    ensures { result ≡ frame_flaw line.now }
{
    match line_flaw(line) {
        Some(flaw) => FrameFlaw::Line(flaw),
        None => flaw_of_fields(line),
    }
}

fn flaw_of_fields(line: &[u8]) -> FrameFlaw
    ensures { result ≡ fields_flaw (fields line.now) }
{
    match str::from_utf8(line) {
        Ok(text) => flaw_in(text),
        Err(_) => FrameFlaw::FieldCount,
    }
}

fn flaw_in(text: &str) -> FrameFlaw
    ensures { result ≡ fields_flaw (parts text.now) }
{
    match four_fields(text) {
        Some(fields) => field_flaw(fields.uuid, fields.arch, fields.load),
        None => FrameFlaw::FieldCount,
    }
}

// The first of four fields that is not valid, if one is not.
fn field_flaw(uuid: &str, arch: &str, load: &str) -> FrameFlaw
    ensures { result ≡ field_flaw (parsed uuid.now) (arch_of arch.now) (load_of load.now) }
{
    match (Uuid::read(uuid), ArchKey::read(arch), read_load(load)) {
        (None, _, _) => FrameFlaw::Uuid,
        (Some(_), None, _) => FrameFlaw::Arch,
        (Some(_), Some(_), None) => FrameFlaw::Load,
        (Some(_), Some(_), Some(_)) => FrameFlaw::Address,
    }
}
