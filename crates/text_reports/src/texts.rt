//! The printed texts of faults: a fault's name, and in parentheses its numbers or the fault inside.

use archive_core::SliceFault;
use archive_image_admission::TakeFault;
use archive_records::{RecordFault, RecordFaultKind};
use fat_slices::FatFault;
use macho_image::ImageFault;
use macho_symbols::SymbolFault;
use std::fmt::{self, Display};
use text_input_files::ScriptFault;

/// A value of another crate, with its text for the report.
#[derive(Clone, Copy, Debug, PartialEq, Eq)]
pub struct Text<T>(pub T);

// A fault's name, and its number in parentheses.
#[derive(Clone, Copy)]
struct Numbered<'a>(&'a str, u32);

impl<'a> fmt::Display for Numbered<'a> {
    ghost use Rattle.std.specs.Prelude.{Some};
    ghost use Rattle.std.specs.Fmt.{decimal};
    ghost use Rattle.text_reports.specs.Texts.{called};

    ghost output = { λ fault. Some (called fault.0.now (decimal fault.1)) };

    fn fmt<W: fmt::Write>(&self, f: &mut fmt::Formatter<W>) -> fmt::Result {
        let name = self.0;
        let number = self.1;
        write!(f, "{name}({number})")
    }
}

#[tactic(auto, unfolding(crate::specs::Texts::image_fault_text))]
impl fmt::Display for Text<ImageFault> {
    ghost use Rattle.std.specs.Prelude.{Some};
    ghost use Rattle.text_reports.specs.Texts.{image_fault_text};

    ghost output = { λ text. Some (image_fault_text text.0) };

    fn fmt<W: fmt::Write>(&self, f: &mut fmt::Formatter<W>) -> fmt::Result {
        match self.0 {
            ImageFault::NotMachO64 => f.write_str("NotMachO64"),
            ImageFault::HeaderTruncated => f.write_str("HeaderTruncated"),
            ImageFault::CommandsOutside => f.write_str("CommandsOutside"),
            ImageFault::BadCommand(command) => Numbered("BadCommand", command).fmt(f),
            ImageFault::BadSegment(command) => Numbered("BadSegment", command).fmt(f),
            ImageFault::BadUuid(command) => Numbered("BadUuid", command).fmt(f),
            ImageFault::SecondUuid(command) => Numbered("SecondUuid", command).fmt(f),
            ImageFault::BadSymtab(command) => Numbered("BadSymtab", command).fmt(f),
            ImageFault::SecondSymtab(command) => Numbered("SecondSymtab", command).fmt(f),
            ImageFault::NoUuid => f.write_str("NoUuid"),
            ImageFault::TooLarge => f.write_str("TooLarge"),
        }
    }
}

#[tactic(auto, unfolding(crate::specs::Texts::symbol_fault_text))]
impl fmt::Display for Text<SymbolFault> {
    ghost use Rattle.std.specs.Prelude.{Some};
    ghost use Rattle.text_reports.specs.Texts.{symbol_fault_text};

    ghost output = { λ text. Some (symbol_fault_text text.0) };

    fn fmt<W: fmt::Write>(&self, f: &mut fmt::Formatter<W>) -> fmt::Result {
        match self.0 {
            SymbolFault::SymbolsOutside => f.write_str("SymbolsOutside"),
            SymbolFault::StringsOutside => f.write_str("StringsOutside"),
        }
    }
}

#[tactic(auto, unfolding(crate::specs::Texts::slice_fault_text))]
impl fmt::Display for Text<SliceFault> {
    ghost use Rattle.std.specs.Prelude.{Some};
    ghost use Rattle.text_reports.specs.Texts.{slice_fault_text};

    ghost output = { λ text. Some (slice_fault_text text.0) };

    fn fmt<W: fmt::Write>(&self, f: &mut fmt::Formatter<W>) -> fmt::Result {
        match self.0 {
            SliceFault::Image(fault) => {
                let fault = Text(fault);
                write!(f, "Image({fault})")
            }
            SliceFault::Symbols(fault) => {
                let fault = Text(fault);
                write!(f, "Symbols({fault})")
            }
        }
    }
}

#[tactic(auto, unfolding(crate::specs::Texts::record_fault_kind_text))]
impl fmt::Display for Text<RecordFaultKind> {
    ghost use Rattle.std.specs.Prelude.{Some};
    ghost use Rattle.text_reports.specs.Texts.{record_fault_kind_text};

    ghost output = { λ text. Some (record_fault_kind_text text.0) };

    fn fmt<W: fmt::Write>(&self, f: &mut fmt::Formatter<W>) -> fmt::Result {
        match self.0 {
            RecordFaultKind::BadMagic => f.write_str("BadMagic"),
            RecordFaultKind::Truncated => f.write_str("Truncated"),
            RecordFaultKind::BadTag => f.write_str("BadTag"),
            RecordFaultKind::TooLarge => f.write_str("TooLarge"),
            RecordFaultKind::NotAscending => f.write_str("NotAscending"),
            RecordFaultKind::BadSlice(fault) => {
                let fault = Text(fault);
                write!(f, "BadSlice({fault})")
            }
            RecordFaultKind::KeyMismatch => f.write_str("KeyMismatch"),
            RecordFaultKind::BadCount => f.write_str("BadCount"),
            RecordFaultKind::Trailing => f.write_str("Trailing"),
            RecordFaultKind::Device => f.write_str("Device"),
            RecordFaultKind::OutOfMemory => f.write_str("OutOfMemory"),
            RecordFaultKind::Covered => f.write_str("Covered"),
        }
    }
}

#[tactic(auto, unfolding(crate::specs::Texts::record_fault_text))]
impl fmt::Display for Text<RecordFault> {
    ghost use Rattle.std.specs.Prelude.{Some};
    ghost use Rattle.text_reports.specs.Texts.{record_fault_text};

    ghost output = { λ text. Some (record_fault_text text.0) };

    fn fmt<W: fmt::Write>(&self, f: &mut fmt::Formatter<W>) -> fmt::Result {
        let kind = Text(self.0.kind);
        let offset = self.0.offset;
        write!(f, "{kind} at {offset}")
    }
}

#[tactic(auto, unfolding(crate::specs::Texts::fat_fault_text))]
impl fmt::Display for Text<FatFault> {
    ghost use Rattle.std.specs.Prelude.{Some};
    ghost use Rattle.text_reports.specs.Texts.{fat_fault_text};

    ghost output = { λ text. Some (fat_fault_text text.0) };

    fn fmt<W: fmt::Write>(&self, f: &mut fmt::Formatter<W>) -> fmt::Result {
        match self.0 {
            FatFault::NotUniversal => f.write_str("NotUniversal"),
            FatFault::HeaderTruncated => f.write_str("HeaderTruncated"),
            FatFault::TooManyArches(count) => Numbered("TooManyArches", count).fmt(f),
            FatFault::TableTruncated => f.write_str("TableTruncated"),
            FatFault::SliceOutside(entry) => Numbered("SliceOutside", entry).fmt(f),
            FatFault::TooLarge(entry) => Numbered("TooLarge", entry).fmt(f),
        }
    }
}

#[tactic(auto, unfolding(crate::specs::Texts::take_fault_text))]
impl fmt::Display for Text<TakeFault> {
    ghost use Rattle.std.specs.Prelude.{Some};
    ghost use Rattle.text_reports.specs.Texts.{take_fault_text};

    ghost output = { λ text. Some (take_fault_text text.0) };

    fn fmt<W: fmt::Write>(&self, f: &mut fmt::Formatter<W>) -> fmt::Result {
        match self.0 {
            TakeFault::Unrecognised => f.write_str("Unrecognised"),
            TakeFault::Fat(fault) => {
                let fault = Text(fault);
                write!(f, "Fat({fault})")
            }
            TakeFault::Slice(slice, fault) => {
                let fault = Text(fault);
                write!(f, "Slice({slice}, {fault})")
            }
            TakeFault::NothingToAdmit => f.write_str("NothingToAdmit"),
            TakeFault::OutOfMemory => f.write_str("OutOfMemory"),
        }
    }
}

#[tactic(auto, unfolding(crate::specs::Texts::script_fault_text))]
impl fmt::Display for Text<ScriptFault> {
    ghost use Rattle.std.specs.Prelude.{Some};
    ghost use Rattle.text_reports.specs.Texts.{script_fault_text};

    ghost output = { λ text. Some (script_fault_text text.0) };

    fn fmt<W: fmt::Write>(&self, f: &mut fmt::Formatter<W>) -> fmt::Result {
        match self.0 {
            ScriptFault::NoSites => f.write_str("NoSites"),
            ScriptFault::BadEvent => f.write_str("BadEvent"),
            ScriptFault::TooManyEvents => f.write_str("TooManyEvents"),
        }
    }
}
