//! Groups of rows, and their place among stored bytes.

ghost use Rattle.std.specs.Prelude.{◌≡◌, ◌+◌, ◌*◌, ◌<◌, ◌^◌};
ghost use Rattle.table_checked_pages.specs.Groups.{groups_in};

/// The number of rows in a group; the last group has the rest.
pub const GROUP_ROWS: usize = 128;

/// The largest size of a group in bytes.
pub const GROUP_MOST: usize = 40 * GROUP_ROWS;

/// The size of the row of a group in bytes.
pub const GROUP_LEN: usize = 16;

/// The number of groups of so many rows.
pub fn groups_in(rows: u64) -> u64
    ensures { result ≡ groups_in rows }
{
    rows / GROUP_ROWS as u64 + u64::from(rows % GROUP_ROWS as u64 > 0)
}

/// The place of groups among stored bytes: the row of each group, and after these the bytes of all groups.
#[derive(Clone, Copy, Drop)]
pub struct Groups {
    /// The offset of the row of the first group.
    pub offset: u64,
    /// The number of groups.
    pub count: u64,
    /// The size of all groups in bytes.
    pub size: u64,
    ghost fits: { offset + 16 * count + size < 2 ^ 64 },
}
