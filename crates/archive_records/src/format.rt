//! The formats of files: each has a magic.

ghost use Rattle.std.specs.Prelude.{◌≡◌, ◌≤◌, ◌↔◌, IsTrue, length, take};
ghost use Rattle.archive_records.specs.declared.format.Format.TheVariants.{Operations};
ghost use Rattle.archive_records.specs.Kind.{magic_of, allows};

use std::cmp::Ordering;

/// The format of a file of records: its magic, and the rules for its records.
#[derive(Clone, Copy, Debug, PartialEq, Eq)]
pub enum Format {
    /// The text of an archive: its records ascend, and an end record follows them.
    Archive,
    /// The same in version 1; it may contain slices that its retirements cover.
    OldArchive,
    /// Operations in any order, with repeats, up to the end of the input.
    Operations,
    /// The text of a summary: its entries ascend, and an end record follows them.
    Summary,
}

impl Format {
    /// The first eight bytes of the file.
    pub fn magic(self) -> [u8; 8]
        ensures { result ≡ magic_of self }
    {
        match self {
            Format::Archive => *b"MSYMARC2",
            Format::OldArchive => *b"MSYMARC1",
            Format::Operations => *b"MSYMOPS1",
            Format::Summary => *b"MSYMSUM1",
        }
    }

    /// Whether the bytes are a prefix of the magic.
    pub fn magic_begins_with(self, bytes: &[u8]) -> bool
        requires { length bytes.now ≤ 8 }
        ensures { IsTrue result ↔ (bytes.now ≡ take (length bytes.now) (magic_of self)) }
    {
        bytes == &self.magic()[..bytes.len()]
    }

    /// Whether a record may follow one that compares with it by this order.
    #[tactic(auto, unfolding(crate::specs::Kind::allows))]
    pub fn allows(self, order: Ordering) -> bool
        ensures { result ≡ allows self order }
    {
        match self {
            Format::Archive | Format::OldArchive | Format::Summary => order == Ordering::Less,
            Format::Operations => true,
        }
    }

    /// Whether the file ends where nothing is left after its records; it has no end record.
    pub fn is_open(self) -> bool
        ensures { IsTrue result ↔ (self ≡ Operations) }
    {
        match self {
            Format::Archive | Format::OldArchive | Format::Summary => false,
            Format::Operations => true,
        }
    }
}
