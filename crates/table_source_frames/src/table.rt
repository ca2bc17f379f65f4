//! A line table, and the offsets of its parts.

ghost use Rattle.std.specs.Prelude.{◌≡◌, ◌+◌, ◌-◌, ◌*◌, ◌<◌, ◌≤◌, ◌^◌};
ghost use Rattle.table_checked_pages.specs.Groups.{groups_in};

use crate::row::{FILE_LEN, SCOPE_LEN, TEXT_LEN};
use table_checked_pages::{GROUP_LEN, groups_in};

/// The size of the head in bytes.
pub const HEAD_LEN: usize = 56;

/// The line table of a slice, after its head was read. Its bytes are those of stored pages from an offset on, after the
/// strings of the slice; each call passes the pages and their device.
#[derive(Clone, Copy, Drop)]
pub struct LineTable {
    // The offset of the strings, which end where the table begins.
    pub(crate) strings: u64,
    pub(crate) offset: u64,
    pub(crate) steps: u64,
    // The size of all steps in bytes.
    pub(crate) step_bytes: u64,
    pub(crate) scopes: u64,
    pub(crate) files: u64,
    pub(crate) texts: u64,
    // The size of all texts in bytes.
    pub(crate) bytes: u64,
    ghost before: { strings ≤ offset },
    ghost size: { offset + 56 + 16 * groups_in steps + step_bytes + 20 * scopes + 12 * files + 8 * texts + bytes
        < 2 ^ 64 },
}

impl LineTable {
    /// The size of the strings in bytes.
    pub(crate) fn strings_len(&self) -> u64
        ensures { result ≡ self.now.offset - self.now.strings }
    {
        self.offset - self.strings
    }

    /// The offset of the first scope.
    pub(crate) fn first_scope(&self) -> u64
        ensures { result ≡ self.now.offset + 56 + 16 * groups_in self.now.steps + self.now.step_bytes }
    {
        let groups = GROUP_LEN as u64 * groups_in(self.steps);
        self.offset + HEAD_LEN as u64 + groups + self.step_bytes
    }

    /// The offset of the first file.
    pub(crate) fn first_file(&self) -> u64
        ensures { result ≡ self.now.offset + 56 + 16 * groups_in self.now.steps + self.now.step_bytes
            + 20 * self.now.scopes }
    {
        self.first_scope() + SCOPE_LEN as u64 * self.scopes
    }

    /// The offset of the row of the first text.
    pub(crate) fn first_text(&self) -> u64
        ensures { result ≡ self.now.offset + 56 + 16 * groups_in self.now.steps + self.now.step_bytes
            + 20 * self.now.scopes + 12 * self.now.files }
    {
        self.first_file() + FILE_LEN as u64 * self.files
    }

    /// The offset of the first byte of the texts.
    pub(crate) fn texts_offset(&self) -> u64
        ensures { result ≡ self.now.offset + 56 + 16 * groups_in self.now.steps + self.now.step_bytes
            + 20 * self.now.scopes + 12 * self.now.files + 8 * self.now.texts }
    {
        self.first_text() + TEXT_LEN as u64 * self.texts
    }
}
