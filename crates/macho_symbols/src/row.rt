//! The rows of a table, and the row for an address.

ghost use Rattle.macho_symbols.specs.Rows.{AreRising, IsRowFor};

/// The nearest symbol of the addresses from `start` on, up to the start of the next row.
#[derive(Clone, Copy, Debug, PartialEq, Eq)]
pub struct Row {
    /// The first address.
    pub start: u64,
    /// The `n_value` of the symbol; 0 if there is no nearest symbol.
    pub value: u64,
    /// The offset of its name in the string table: the least `n_strx` of the entries for this symbol.
    pub n_strx: u32,
    /// The number of its section, from 1 on; 0 if there is no nearest symbol.
    pub sect: u8,
}

/// The row for an address: the last that begins at or below it.
pub(crate) fn row_for(rows: &[Row], address: u64) -> Option<Row>
    requires { AreRising rows.now }
    ensures { IsRowFor rows.now address result }
{
    let end = rows.partition_point(|row| row.start <= address);
    if end == 0 {
        return None;
    }
    Some(rows[end - 1])
}
