//! The rows of `admit`: one for each part of an accepted file, and one for each file that is passed over.

ghost use Rattle.std.specs.Prelude.{◌≡◌, IfOk, string_bytes};
ghost use Rattle.command_archives.specs.FileRows.{file_lines};

use command_common::Why;
use heap_memory::{Heap, NoMemory};
use std::fmt;
use text_reports::AdmitRow;

/// A row of `admit`. Files are numbered from 0.
#[derive(Clone, Copy, Debug, PartialEq, Eq)]
pub enum FileRow {
    /// A part of an accepted file.
    Part(AdmitRow),
    /// A file that is passed over, and why.
    PassedOver { file: u64, why: Why },
}

#[tactic(auto, unfolding(crate::specs::FileRows::file_row_text))]
impl fmt::Display for FileRow {
    ghost use Rattle.std.specs.Prelude.{Some};
    ghost use Rattle.command_archives.specs.FileRows.{file_row_text};

    ghost output = { λ row. Some (file_row_text row) };

    fn fmt<W: fmt::Write>(&self, f: &mut fmt::Formatter<W>) -> fmt::Result {
        match self {
            FileRow::Part(row) => write!(f, "{row}"),
            FileRow::PassedOver { file, why } => write!(f, "file {file} refused {why}"),
        }
    }
}

/// The lines of rows, in order.
pub fn file_lines(heap: Heap, rows: &[FileRow]) -> Result<String<Heap>, NoMemory>
    ensures { IfOk result (λ text. string_bytes text ≡ file_lines rows.now) }
{
    let mut text = String::new(heap);
    'rows: for row in rows {
        writeln!(text, "{row}")?;
    }
    Ok(text)
}
