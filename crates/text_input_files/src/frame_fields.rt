//! The frame of a line.

ghost use Rattle.std.specs.Prelude.{◌≡◌, ◌≢◌, [], ◌∷◌, MatchOption, length};
ghost use Rattle.uuid.specs.Text.{parsed};
ghost use Rattle.text_values.specs.Lines.{parts};
ghost use Rattle.text_values.specs.Words.{address_of, arch_of};
ghost use Rattle.text_input_files.specs.Frames.{fields_frame, frame_with, line_frame, load_of};

use crate::frame::Frame;
use archive_core::{ArchKey, SliceKey};
use std::str;
use text_values::{Word, cut_field};
use uuid::Uuid;

pub fn read_frame(line: &[u8]) -> Option<Frame>
    ensures { result ≡ line_frame line.now }
{
    match str::from_utf8(line) {
        Ok(text) => frame_in(text),
        Err(_) => None,
    }
}

// `UUID ARCH LOAD ADDRESS`.
fn frame_in(text: &str) -> Option<Frame>
    ensures { result ≡ fields_frame (parts text.now) }
{
    let fields = four_fields(text)?;
    frame_of(fields.uuid, fields.arch, fields.load, fields.address)
}

/// Four fields, which need not be valid.
#[derive(Clone, Copy)]
pub struct FourFields<'t> {
    pub uuid: &'t str,
    pub arch: &'t str,
    pub load: &'t str,
    pub address: &'t str,
}

pub fn four_fields(text: &str) -> Option<FourFields<'_>>
    ensures { MatchOption result (length (parts text.now) ≢ 4)
        (λ f. parts text.now ≡ f.uuid.now ∷ f.arch.now ∷ f.load.now ∷ f.address.now ∷ []) }
{
    let (uuid, behind) = cut_field(text);
    let (arch, behind) = cut_field(behind?);
    let (load, behind) = cut_field(behind?);
    let (address, more) = cut_field(behind?);
    if more.is_some() {
        return None;
    }
    Some(FourFields {
        uuid,
        arch,
        load,
        address,
    })
}

fn frame_of(uuid: &str, arch: &str, load: &str, address: &str) -> Option<Frame>
    ensures { result
        ≡ frame_with (parsed uuid.now) (arch_of arch.now) (load_of load.now) (address_of address.now) }
{
    Some(Frame {
        key: SliceKey {
            uuid: Uuid::read(uuid)?,
            arch: ArchKey::read(arch)?,
        },
        load: read_load(load)?,
        address: u64::read(address)?,
    })
}

/// The load address of an image, or `-` if the address is one of the file.
pub fn read_load(text: &str) -> Option<Option<u64>>
    ensures { result ≡ load_of text.now }
{
    if text == "-" {
        return Some(None);
    }
    Some(Some(u64::read(text)?))
}
