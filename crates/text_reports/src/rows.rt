//! The rows that commands report.

use crate::Text;
use archive_core::SliceKey;
use archive_image_admission::Taken;
use archive_records::Sizes;
use std::fmt;
use text_values::Spelled;

/// A slice of a file that was admitted. File and slice are counted from 0.
#[derive(Clone, Copy, Debug, PartialEq, Eq)]
pub struct AdmitRow {
    pub file: u64,
    pub slice: u64,
    pub taken: Taken,
}

#[tactic(auto, unfolding(crate::specs::Rows::key_text))]
impl fmt::Display for Text<SliceKey> {
    ghost use Rattle.std.specs.Prelude.{Some};
    ghost use Rattle.text_reports.specs.Rows.{key_text};

    ghost output = { λ text. Some (key_text text.0) };

    fn fmt<W: fmt::Write>(&self, f: &mut fmt::Formatter<W>) -> fmt::Result {
        let uuid = self.0.uuid;
        let arch = Spelled(self.0.arch);
        write!(f, "{uuid} {arch}")
    }
}

#[tactic(auto, unfolding(crate::specs::Rows::taken_text))]
impl fmt::Display for Text<Taken> {
    ghost use Rattle.std.specs.Prelude.{Some};
    ghost use Rattle.text_reports.specs.Rows.{taken_text};

    ghost output = { λ text. Some (taken_text text.0) };

    fn fmt<W: fmt::Write>(&self, f: &mut fmt::Formatter<W>) -> fmt::Result {
        match self.0 {
            Taken::Added(key, digest) => {
                let key = Text(key);
                let digest = Spelled(digest);
                write!(f, "added {key} {digest}")
            }
            Taken::Known(key, digest) => {
                let key = Text(key);
                let digest = Spelled(digest);
                write!(f, "known {key} {digest}")
            }
            Taken::Skipped => f.write_str("skipped"),
        }
    }
}

#[tactic(auto, unfolding(crate::specs::Rows::admit_row_text))]
impl fmt::Display for AdmitRow {
    ghost use Rattle.std.specs.Prelude.{Some};
    ghost use Rattle.text_reports.specs.Rows.{admit_row_text};

    ghost output = { λ row. Some (admit_row_text row) };

    fn fmt<W: fmt::Write>(&self, f: &mut fmt::Formatter<W>) -> fmt::Result {
        let file = self.file;
        let slice = self.slice;
        let taken = Text(self.taken);
        write!(f, "file {file} slice {slice} {taken}")
    }
}

#[tactic(auto, unfolding(crate::specs::Rows::sizes_text))]
impl fmt::Display for Text<Sizes> {
    ghost use Rattle.std.specs.Prelude.{Some};
    ghost use Rattle.text_reports.specs.Rows.{sizes_text};

    ghost output = { λ text. Some (sizes_text text.0) };

    fn fmt<W: fmt::Write>(&self, f: &mut fmt::Formatter<W>) -> fmt::Result {
        let records = self.0.records;
        let bytes = self.0.bytes;
        write!(f, "archive: {records} records, {bytes} bytes")
    }
}
