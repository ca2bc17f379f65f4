//! The layout of a row in a table.

ghost use Rattle.std.specs.Prelude.{◌≡◌, length};
ghost use Rattle.table_symbols.specs.Rows.{row_bytes, IsRow};
ghost use Rattle.macho_symbols.specs.declared.row.Row.{Row};

use macho_symbols::Row;
use table_checked_pages::{u32_be_at, u64_be_at};

/// The size of a row in bytes.
pub(crate) const ROW_LEN: usize = 21;

/// The row with these bytes: start u64, value u64, n_strx u32, sect u8, big-endian.
pub(crate) fn row_of(bytes: &[u8]) -> Row
    requires { length bytes.now ≡ 21 }
    ensures { (row : Row) → IsRow row → bytes.now ≡ row_bytes row → result ≡ row }
{
    Row {
        start: u64_be_at(bytes, 0),
        value: u64_be_at(bytes, 8),
        n_strx: u32_be_at(bytes, 16),
        sect: bytes[20],
    }
}
