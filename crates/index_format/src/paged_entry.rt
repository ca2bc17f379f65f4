//! An entry that was read from pages.

ghost use Rattle.std.specs.Prelude.{◌≡◌, length};

/// The bytes of an entry, and its number among all.
#[derive(Clone, Copy)]
pub(crate) struct PagedEntry {
    pub number: u64,
    pub bytes: [u8; 122],
    ghost long: { length bytes ≡ 122 },
}
