//! The results of commands, and the faults of refused ones, with the text of each fault.

use archive_image_admission::TakeFault;
use archive_records::RecordFault;
use index_format::IndexFault;
use std::alloc::{AllocError, AllocFailed};
use std::error::Error;
use std::fmt::{self, Display};
use text_input_files::{FrameFlaw, ScriptFault, ScriptFlaw};
use text_reports::Text;

/// The status of a command that was not refused.
#[derive(Clone, Copy, Debug, PartialEq, Eq)]
pub enum Status {
    /// Everything asked for was done or found: exit status 0.
    Done,
    /// The answer is empty or has no single symbol: exit status 1.
    Partial,
    /// Files were passed over, as the report says; everything else was done: exit status 2.
    SomeRefused,
}

/// The name of an input of a command. Archives, files and indexes are counted from 0, in the order of the command line.
#[derive(Clone, Copy, Debug, PartialEq, Eq)]
pub enum InputName {
    /// An archive that is read.
    Archive(u64),
    /// A file whose slices are admitted.
    File(u64),
    /// The operations file that is applied.
    Ops,
    /// The summary that an archive is compared with.
    Summary,
    /// The script that is carried out.
    Script,
    /// The frames that are answered.
    Frames,
    /// The index of the archive with this number.
    Index(u64),
}

/// The fault of an input.
#[derive(Clone, Copy, Debug, PartialEq, Eq)]
pub enum Why {
    /// It could not be opened.
    CannotOpen,
    /// Reading a file of slices, a script or frames failed.
    Device,
    /// It is not the text of an archive, of operations or of a summary, or reading it failed.
    Record(RecordFault),
    /// Its slices are not admitted.
    Take(TakeFault),
    /// It is not a script; the line is the first faulty one, counted from 1. Its flaw is not printed with it.
    Script {
        fault: ScriptFault,
        line: u64,
        flaw: Option<ScriptFlaw>,
    },
    /// It is not a text of frames; the line is the first faulty one, counted from 1. Its flaw is not printed with it.
    BadFrame {
        line: u64,
        flaw: FrameFlaw,
    },
    /// It is an archive of version 1, which cannot be indexed.
    OldArchive,
    /// A record of the archive, or its table in the index, would begin at byte 2^64 or later.
    TooLong,
    /// It is not the text of an index, or reading it failed.
    Index(IndexFault),
    /// The index is not of this archive. `None`: the archive has another length. `Some(n)`: the archive does not have
    /// the record of entry `n`, counted from 0, at its offset.
    Stale(Option<u64>),
    /// It is an index whose table for this entry, counted from 0, was changed.
    Damaged(u64),
    /// It is an index whose table for this entry, counted from 0, has no source lines, though they were asked for.
    NoLines(u64),
    /// It is an index with a number that no archive has.
    NoArchive,
    /// It is an archive with a number that no index has, though there are indexes.
    NoIndex,
}

/// Why a command fails.
#[derive(Clone, Copy, Debug, PartialEq, Eq)]
pub enum CommandFault {
    /// An input is refused.
    Input(InputName, Why),
    /// The output failed after it accepted this number of bytes.
    Output(u128),
    /// Standard output failed after it accepted this number of bytes of the report.
    Report(u128),
    /// Memory ran out.
    OutOfMemory,
}

impl Error for CommandFault {}

impl From<AllocError> for CommandFault {
    ghost use Rattle.std.specs.Prelude.{◌≡◌};
    ghost use Rattle.command_common.specs.declared.faults.CommandFault.TheVariants.{OutOfMemory};

    ghost from_gives = { λ _ fault. fault ≡ OutOfMemory };

    fn from(_refused: AllocError) -> CommandFault {
        CommandFault::OutOfMemory
    }
}

impl<T: Drop> From<AllocFailed<T>> for CommandFault {
    ghost use Rattle.std.specs.Prelude.{◌≡◌};
    ghost use Rattle.command_common.specs.declared.faults.CommandFault.TheVariants.{OutOfMemory};

    ghost from_gives = { λ _ fault. fault ≡ OutOfMemory };

    fn from(_refused: AllocFailed<T>) -> CommandFault {
        CommandFault::OutOfMemory
    }
}

#[tactic(auto, unfolding(crate::specs::FaultTexts::name_text))]
impl fmt::Display for InputName {
    ghost use Rattle.std.specs.Prelude.{Some};
    ghost use Rattle.command_common.specs.FaultTexts.{name_text};

    ghost output = { λ name. Some (name_text name) };

    fn fmt<W: fmt::Write>(&self, f: &mut fmt::Formatter<W>) -> fmt::Result {
        match self {
            InputName::Archive(number) => write!(f, "archive {number}"),
            InputName::File(number) => write!(f, "file {number}"),
            InputName::Ops => f.write_str("ops"),
            InputName::Summary => f.write_str("summary"),
            InputName::Script => f.write_str("script"),
            InputName::Frames => f.write_str("frames"),
            InputName::Index(number) => write!(f, "index {number}"),
        }
    }
}

#[tactic(auto, unfolding(crate::specs::FaultTexts::why_text))]
impl fmt::Display for Why {
    ghost use Rattle.std.specs.Prelude.{Some};
    ghost use Rattle.command_common.specs.FaultTexts.{why_text};

    ghost output = { λ why. Some (why_text why) };

    fn fmt<W: fmt::Write>(&self, f: &mut fmt::Formatter<W>) -> fmt::Result {
        match self {
            Why::CannotOpen => f.write_str("cannot open"),
            Why::Device => f.write_str("Device"),
            Why::Record(fault) => {
                let fault = Text(*fault);
                write!(f, "{fault}")
            }
            Why::Take(fault) => {
                let fault = Text(*fault);
                write!(f, "{fault}")
            }
            Why::Script { fault, line, .. } => {
                let fault = Text(*fault);
                write!(f, "{fault} at line {line}")
            }
            Why::BadFrame { line, .. } => write!(f, "BadFrame at line {line}"),
            Why::OldArchive => f.write_str("OldArchive"),
            Why::TooLong => f.write_str("TooLong"),
            Why::Index(fault) => write!(f, "{fault}"),
            Why::Stale(None) => f.write_str("Stale"),
            Why::Stale(Some(entry)) => write!(f, "Stale at entry {entry}"),
            Why::Damaged(entry) => write!(f, "Damaged at entry {entry}"),
            Why::NoLines(entry) => write!(f, "NoLines at entry {entry}"),
            Why::NoArchive => f.write_str("NoArchive"),
            Why::NoIndex => f.write_str("NoIndex"),
        }
    }
}

#[tactic(auto, unfolding(crate::specs::FaultTexts::command_fault_text))]
impl fmt::Display for CommandFault {
    ghost use Rattle.std.specs.Prelude.{Some};
    ghost use Rattle.command_common.specs.FaultTexts.{command_fault_text};

    ghost output = { λ fault. Some (command_fault_text fault) };

    fn fmt<W: fmt::Write>(&self, f: &mut fmt::Formatter<W>) -> fmt::Result {
        match self {
            CommandFault::Input(name, why) => write!(f, "{name}: {why}"),
            CommandFault::Output(written) => write!(f, "output: failed after {written} bytes"),
            CommandFault::Report(written) => write!(f, "report: failed after {written} bytes"),
            CommandFault::OutOfMemory => f.write_str("out of memory"),
        }
    }
}
