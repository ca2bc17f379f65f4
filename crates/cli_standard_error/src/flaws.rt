//! The faulty line of FRAMES or of SCRIPT, in the words of messages.

ghost use Rattle.std.specs.Prelude.{◌≡◌};
ghost use Rattle.cli_standard_error.specs.Hints.{faulty_line, line_flaw_text};

use cli_arguments::{Form, form_text};
use command_common::Why;
use std::fmt;
use text_input_files::{FrameFlaw, NumberFlaw, ScriptFlaw};
use text_values::LineFlaw;

/// The flaw of a line.
#[derive(Clone, Copy)]
pub enum Flaw {
    Frame(FrameFlaw),
    Script(ScriptFlaw),
}

/// A line, counted from 1, with its flaw.
#[derive(Clone, Copy)]
pub struct FaultyLine {
    pub line: u64,
    pub flaw: Flaw,
}

impl FaultyLine {
    /// The line for which an input is refused, if that is the reason and more is known of it.
    pub fn of(why: Why) -> Option<FaultyLine>
        ensures { result ≡ faulty_line why }
    {
        match why {
            Why::BadFrame { line, flaw } => Some(FaultyLine {
                line,
                flaw: Flaw::Frame(flaw),
            }),
            Why::Script { line, flaw, .. } => Some(FaultyLine {
                line,
                flaw: Flaw::Script(flaw?),
            }),
            _ => None,
        }
    }
}

#[tactic(auto, unfolding(crate::specs::Hints::faulty_line_text))]
impl fmt::Display for FaultyLine {
    ghost use Rattle.std.specs.Prelude.{Some};
    ghost use Rattle.cli_standard_error.specs.Hints.{faulty_line_text};

    ghost output = { λ faulty. Some (faulty_line_text faulty) };

    fn fmt<W: fmt::Write>(&self, f: &mut fmt::Formatter<W>) -> fmt::Result {
        let line = self.line;
        match self.flaw {
            Flaw::Frame(flaw) => {
                let flaw = FrameWords(flaw);
                write!(f, "whose line {line} {flaw}")
            }
            Flaw::Script(flaw) => {
                let flaw = ScriptWords(flaw);
                write!(f, "whose line {line} {flaw}")
            }
        }
    }
}

/// The flaw of a line of FRAMES.
#[derive(Clone, Copy)]
struct FrameWords(FrameFlaw);

#[tactic(auto, unfolding(crate::specs::Hints::frame_flaw_text, crate::specs::Hints::invalid_text))]
impl fmt::Display for FrameWords {
    ghost use Rattle.std.specs.Prelude.{Some};
    ghost use Rattle.cli_standard_error.specs.Hints.{frame_flaw_text};

    ghost output = { λ words. Some (frame_flaw_text words.0) };

    fn fmt<W: fmt::Write>(&self, f: &mut fmt::Formatter<W>) -> fmt::Result {
        match self.0 {
            FrameFlaw::Line(flaw) => f.write_str(text_of(flaw)),
            FrameFlaw::FieldCount => f.write_str("has not the four fields UUID ARCH LOAD ADDRESS"),
            FrameFlaw::Uuid => {
                let form = form_text(Form::Uuid);
                write!(f, "has an invalid UUID: expected {form}")
            }
            FrameFlaw::Arch => {
                let form = form_text(Form::Arch);
                write!(f, "has an invalid ARCH: expected {form}")
            }
            FrameFlaw::Load => {
                let form = form_text(Form::Number);
                write!(f, "has an invalid LOAD: expected - or {form}")
            }
            FrameFlaw::Address => {
                let form = form_text(Form::Number);
                write!(f, "has an invalid ADDRESS: expected {form}")
            }
        }
    }
}

/// The flaw of a line of SCRIPT.
#[derive(Clone, Copy)]
struct ScriptWords(ScriptFlaw);

#[tactic(auto, unfolding(crate::specs::Hints::script_flaw_text, crate::specs::Hints::invalid_text))]
impl fmt::Display for ScriptWords {
    ghost use Rattle.std.specs.Prelude.{Some};
    ghost use Rattle.cli_standard_error.specs.Hints.{script_flaw_text};

    ghost output = { λ words. Some (script_flaw_text words.0) };

    fn fmt<W: fmt::Write>(&self, f: &mut fmt::Formatter<W>) -> fmt::Result {
        match self.0 {
            ScriptFlaw::Line(flaw) => f.write_str(text_of(flaw)),
            ScriptFlaw::Sites => f.write_str("is not `sites N`, N from 1 to 64"),
            ScriptFlaw::Word => f.write_str("begins with no word of an event"),
            ScriptFlaw::FieldCount => f.write_str("has fewer or more fields than its event"),
            ScriptFlaw::SiteCount(flaw) => {
                let number = InvalidNumber { flaw, most: 64 };
                write!(f, "has an invalid N: {number}")
            }
            ScriptFlaw::Site(flaw) => {
                let number = InvalidNumber {
                    flaw,
                    most: u32::MAX,
                };
                write!(f, "has an invalid SITE: {number}")
            }
            ScriptFlaw::Bytes => f.write_str("has an invalid BYTES: expected pairs of hex digits"),
            ScriptFlaw::Message(flaw) => {
                let number = InvalidNumber {
                    flaw,
                    most: u32::MAX,
                };
                write!(f, "has an invalid MESSAGE: {number}")
            }
            ScriptFlaw::Uuid => {
                let form = form_text(Form::Uuid);
                write!(f, "has an invalid UUID: expected {form}")
            }
            ScriptFlaw::Arch => {
                let form = form_text(Form::Arch);
                write!(f, "has an invalid ARCH: expected {form}")
            }
            ScriptFlaw::Digest => {
                let form = form_text(Form::Digest);
                write!(f, "has an invalid DIGEST: expected {form}")
            }
        }
    }
}

/// The flaw of a number in a script, and the greatest valid number.
#[derive(Clone, Copy)]
struct InvalidNumber {
    flaw: NumberFlaw,
    most: u32,
}

#[tactic(auto, unfolding(crate::specs::Hints::number_flaw_text))]
impl fmt::Display for InvalidNumber {
    ghost use Rattle.std.specs.Prelude.{Some};
    ghost use Rattle.cli_standard_error.specs.Hints.{number_flaw_text};

    ghost output = { λ number. Some (number_flaw_text number.flaw number.most) };

    fn fmt<W: fmt::Write>(&self, f: &mut fmt::Formatter<W>) -> fmt::Result {
        let most = self.most;
        match self.flaw {
            NumberFlaw::NotDecimal => write!(f, "expected a decimal number, at most {most}"),
            NumberFlaw::LeadingZeros => f.write_str("expected no leading zeros"),
            NumberFlaw::TooLarge => write!(f, "too large, expected at most {most}"),
        }
    }
}

/// The text for the flaw of a line, for any fields.
fn text_of(flaw: LineFlaw) -> &'static str
    ensures { result.now ≡ line_flaw_text flaw }
{
    match flaw {
        LineFlaw::ByteOrderMark => "begins with a byte-order mark",
        LineFlaw::Tab => "has a tab",
        LineFlaw::CarriageReturn => "has a carriage return",
        LineFlaw::NotText => "is not UTF-8",
        LineFlaw::Spaces => "has two spaces together, or one at an end",
    }
}
