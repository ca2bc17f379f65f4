//! An entry whose values are read on demand (DWARF 5, section 7.5.2).

ghost use Rattle.std.specs.Prelude.{◌≡◌};
ghost use Rattle.std.specs.Option.{option_map};
ghost use Rattle.dwarf_entries.specs.Entries.{entry_at};
ghost use Rattle.dwarf_entries.specs.EntryViews.{entry_view, unread_view};

use crate::abbreviations::Table;
use crate::attributes::Attributes;
use crate::declaration::Declaration;
use crate::entry::{Entry, read_attributes};
use crate::unit_header::UnitHeader;
use dwarf_encoding::unsigned_leb128;

/// An entry whose values are not read yet.
#[derive(Clone, Copy)]
pub struct UnreadEntry<'t, 'a> {
    declaration: &'t Declaration<'a>,
    /// The version of its unit.
    version: u16,
    /// The bytes from its first value on.
    values: &'a [u8],
}

impl<'t, 'a> UnreadEntry<'t, 'a> {
    /// Its tag.
    pub fn tag(&self) -> u64
        ensures { result ≡ (unread_view self.now).tag }
    {
        self.declaration.tag
    }

    /// Whether the entries after it, up to a null entry, are its children.
    pub fn has_children(&self) -> bool
        ensures { result ≡ (unread_view self.now).has_children }
    {
        self.declaration.has_children
    }

    /// The entry with all its values.
    pub fn read(&self) -> Entry<'a>
        ensures { entry_view result ≡ unread_view self.now }
    {
        let shape = &self.declaration.shape;
        let attributes = match read_attributes(
            self.version,
            shape.constants,
            &shape.pairs,
            self.values,
        ) {
            Some((attributes, _)) => attributes,
            None => Attributes::none(),
        };
        Entry {
            tag: self.declaration.tag,
            has_children: self.declaration.has_children,
            attributes,
        }
    }
}

/// The entry that begins the bytes, or `None` for a null entry, and the bytes after it; `None` for both if it cannot be
/// read.
#[tactic(auto, unfolding(crate::specs::Entries::entry_at))]
pub(crate) fn skip_entry<'t, 'a>(
    table: &Table<'t, 'a>,
    header: &UnitHeader,
    bytes: &'a [u8],
) -> Option<(Option<UnreadEntry<'t, 'a>>, &'a [u8])>
    requires { table.now.offset ≡ header.now.debug_abbrev_offset }
    ensures { option_map (λ x. (option_map unread_view x.0, x.1.now)) result
        ≡ entry_at table.now.section.now header.now bytes.now }
{
    let (code, values) = unsigned_leb128(bytes)?;
    if code == 0 {
        return Some((None, values));
    }
    let declaration = table.declaration(code)?;
    let rest = declaration.after_values(header.version, values)?;
    let entry = UnreadEntry {
        declaration,
        version: header.version,
        values,
    };
    Some((Some(entry), rest))
}
