//! The kinds of files with records or entries.

ghost use Rattle.std.specs.Prelude.{◌≡◌, ◌≢◌, ◌<◌, ◌↔◌, IsTrue, IfSome, IfNone, length, take};
ghost use Rattle.archive_records.specs.declared.format.Format.{Format};
ghost use Rattle.archive_records.specs.declared.kind.TextKind.TheVariants.{Operations};
ghost use Rattle.archive_records.specs.Kind.{kind_of, magic_of};

use crate::format::Format;

/// The kind of a file of records.
#[derive(Clone, Copy, Debug, PartialEq, Eq)]
pub enum TextKind {
    /// The text of an archive, of either version.
    Archive,
    /// Operations in any order, with repeats, up to the end of the input.
    Operations,
    /// The text of a summary.
    Summary,
}

impl TextKind {
    /// The format of this kind with these bytes as its magic. `None` if there is none.
    pub fn format_of(self, magic: &[u8]) -> Option<Format>
        ensures found { IfSome result (λ format. (kind_of format ≡ self) × (magic.now ≡ magic_of format)) }
        ensures none { IfNone result ((format : Format) → kind_of format ≡ self → magic.now ≢ magic_of format) }
    {
        let newest = match self {
            TextKind::Archive => Format::Archive,
            TextKind::Operations => Format::Operations,
            TextKind::Summary => Format::Summary,
        };
        if magic == &newest.magic()[..] {
            return Some(newest);
        }
        if self == TextKind::Archive && magic == &Format::OldArchive.magic()[..] {
            return Some(Format::OldArchive);
        }
        None
    }

    /// Whether the bytes, fewer than a magic has, are a prefix of the magic of each format of the kind: the magics of
    /// archives differ in their last byte alone.
    pub fn magic_begins_with(self, bytes: &[u8]) -> bool
        requires { length bytes.now < 8 }
        ensures { (format : Format) → kind_of format ≡ self
            → IsTrue result ↔ (bytes.now ≡ take (length bytes.now) (magic_of format)) }
    {
        match self {
            TextKind::Archive => Format::Archive.magic_begins_with(bytes),
            TextKind::Operations => Format::Operations.magic_begins_with(bytes),
            TextKind::Summary => Format::Summary.magic_begins_with(bytes),
        }
    }

    /// Whether such a file ends where nothing is left after its records; it has no end record.
    pub fn is_open(self) -> bool
        ensures { IsTrue result ↔ (self ≡ Operations) }
    {
        match self {
            TextKind::Archive | TextKind::Summary => false,
            TextKind::Operations => true,
        }
    }
}
