//! The fields of a table's head.

/// The fields of a table's head.
#[derive(Clone, Copy)]
pub(crate) struct Head {
    pub base: Option<u64>,
    pub sections: u64,
    pub rows: u64,
    pub strings: u64,
    pub lines: u64,
}
