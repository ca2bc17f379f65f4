//! The lines of `symbolicate`.
ghost use Rattle.std.specs.Prelude.{◌≡◌, ◌++◌, IfSome, OnOk, string_bytes};
ghost use Rattle.std.specs.List.{list_any};
ghost use Rattle.text_reports.specs.Answers.{answer_lines, own_line, owns_lines};
ghost use Rattle.text_reports.specs.Escapes.{escaped, is_escaped};
ghost use Rattle.text_reports.specs.FrameLists.{lists_view};

use crate::Text;
use crate::frames::{push_frame_list_at, push_frame_lists};
use archive_core::{Answer, Digest, Own};
use dwarf_source_frames::SourceFrame;
use heap_memory::{Heap, NoMemory};
use macho_symbols::Found;
use std::{fmt, str};
use text_values::{Address, Spelled};

/// A name of a symbol, a segment or a section as it is printed: each byte that is no printable ASCII character, and the
/// backslash, as `\x` and two hex digits.
#[derive(Clone, Copy, Debug, PartialEq, Eq)]
pub struct Escaped<'a>(pub &'a [u8]);

// A byte of a name.
#[derive(Clone, Copy)]
pub(crate) struct EscapedByte(pub(crate) u8);

fn is_escaped(byte: u8) -> bool
    ensures { result ≡ is_escaped byte }
{
    byte < 0x20 || byte > 0x7e || byte == b'\\'
}

fn has_escaped(name: &[u8]) -> bool
    ensures { result ≡ list_any is_escaped name.now }
{
    name.iter().any(|byte| is_escaped(*byte))
}

// A name as it is printed, if each of its bytes is printed unchanged.
#[tactic(auto, using(crate::proofs::Escapes::plain_is_escaped))]
fn plain(name: &[u8]) -> Option<&str>
    ensures { IfSome result (λ text. text.now ≡ escaped name.now) }
{
    if has_escaped(name) {
        return None;
    }
    str::from_utf8(name).ok()
}

#[tactic(auto, using(text_values::proofs::Digits::padded_hex2), unfolding(crate::specs::Escapes::escaped_byte))]
impl fmt::Display for EscapedByte {
    ghost use Rattle.std.specs.Prelude.{Some};
    ghost use Rattle.text_reports.specs.Escapes.{escaped_byte};

    ghost output = { λ byte. Some (escaped_byte byte.0) };

    fn fmt<W: fmt::Write>(&self, f: &mut fmt::Formatter<W>) -> fmt::Result {
        let byte = self.0;
        if is_escaped(byte) {
            write!(f, "\\x{byte:02x}")
        } else {
            f.write_char(char::from(byte))
        }
    }
}

impl<'a> fmt::Display for Escaped<'a> {
    ghost use Rattle.std.specs.Prelude.{Some};
    ghost use Rattle.text_reports.specs.Escapes.{escaped};

    ghost output = { λ name. Some (escaped name.0.now) };

    fn fmt<W: fmt::Write>(&self, f: &mut fmt::Formatter<W>) -> fmt::Result {
        if let Some(text) = plain(self.0) {
            return f.write_str(text);
        }
        'bytes: for byte in self.0 {
            let byte = EscapedByte(*byte);
            write!(f, "{byte}")?;
        }
        Ok(())
    }
}

#[tactic(auto, unfolding(crate::specs::Answers::found_text))]
impl<'a> fmt::Display for Text<Found<'a>> {
    ghost use Rattle.std.specs.Prelude.{Some};
    ghost use Rattle.text_reports.specs.Answers.{found_text};

    ghost output = { λ text. Some (found_text text.0) };

    fn fmt<W: fmt::Write>(&self, f: &mut fmt::Formatter<W>) -> fmt::Result {
        let name = Escaped(self.0.name);
        let offset = self.0.offset;
        let segment = Escaped(self.0.segment);
        let section = Escaped(self.0.section);
        write!(f, "{name} + {offset} ({segment},{section})")
    }
}

#[tactic(auto, unfolding(crate::specs::Answers::own_text))]
impl<'a> fmt::Display for Text<Own<'a>> {
    ghost use Rattle.std.specs.Prelude.{Some};
    ghost use Rattle.text_reports.specs.Answers.{own_text};

    ghost output = { λ text. Some (own_text text.0) };

    fn fmt<W: fmt::Write>(&self, f: &mut fmt::Formatter<W>) -> fmt::Result {
        match self.0 {
            Own::NoSymbol => f.write_str("-"),
            Own::Symbol(found) => {
                let found = Text(found);
                write!(f, "{found}")
            }
        }
    }
}

#[tactic(auto, unfolding(crate::specs::Answers::own_line))]
fn push_own(text: &mut String<Heap>, own: &(Digest, Own<'_>)) -> Result<(), NoMemory>
    ensures { OnOk result (string_bytes text.new ≡ string_bytes text.old ++ own_line own.now) }
{
    let digest = Spelled(own.0);
    let own = Text(own.1);
    writeln!(text, "  {digest} {own}")
}

fn push_owns(
    heap: &Heap,
    text: &mut String<Heap>,
    owns: &[(Digest, Own<'_>)],
    frames: &[&[SourceFrame<'_>]],
) -> Result<(), NoMemory>
    ensures { OnOk result (string_bytes text.new
        ≡ string_bytes text.old ++ owns_lines owns.now (lists_view frames.now)) }
{
    'owns: for (index, own) in owns.iter().enumerate() {
        push_own(text, own)?;
        push_frame_list_at(heap, text, frames, index)?;
    }
    Ok(())
}

/// Writes the answer of a key for an address: a line, and after it those of the frames. The line of a conflict is
/// followed by one for each slice that answers, and by those of its frames. `frames` has the frames of each slice that
/// answers, in the order of their records, or is empty if none are asked for. If memory runs out, a part of the lines
/// may have been written.
#[tactic(auto, unfolding(crate::specs::Answers::answer_lines))]
pub fn push_answer(
    heap: &Heap,
    text: &mut String<Heap>,
    address: u64,
    answer: &Answer<'_>,
    frames: &[&[SourceFrame<'_>]],
) -> Result<(), NoMemory>
    ensures { OnOk result (string_bytes text.new ≡ string_bytes text.old
        ++ answer_lines address answer.now (lists_view frames.now)) }
{
    let address = Address(address);
    match answer {
        Answer::Unknown => writeln!(text, "{address} ?")?,
        Answer::NoSymbol => writeln!(text, "{address} -")?,
        Answer::Symbol(found) => {
            let found = Text(*found);
            writeln!(text, "{address} {found}")?;
        }
        Answer::Conflict(owns) => {
            let count = owns.len();
            writeln!(text, "{address} !{count}")?;
            return push_owns(heap, text, owns, frames);
        }
    }
    push_frame_lists(heap, text, frames)
}
