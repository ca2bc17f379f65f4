//! A stored table, and the offsets of its parts.

ghost use Rattle.std.specs.Prelude.{◌+◌, ◌*◌, ◌<◌, ◌^◌};

use crate::head::Head;
use table_checked_pages::Pages;

/// The table of a slice, after its head was read.
#[derive(Drop)]
pub struct Table {
    pub(crate) pages: Pages,
    pub(crate) head: Head,
    ghost size: { 48 + 32 * head.sections + 21 * head.rows + head.strings + head.lines < 2 ^ 64 },
}
