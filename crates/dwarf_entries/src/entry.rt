//! An entry with its values (DWARF 5, section 7.5.2).

ghost use Rattle.std.specs.Prelude.{◌≡◌};
ghost use Rattle.std.specs.Option.{option_map};
ghost use Rattle.dwarf_entries.specs.AttributeViews.{attributes_view};
ghost use Rattle.dwarf_entries.specs.Entries.{attributes_from};

use crate::attributes::Attributes;
use dwarf_encoding::read_value;

/// An entry.
#[derive(Clone, Copy)]
pub struct Entry<'a> {
    pub tag: u64,
    /// Whether the entries after it, up to a null entry, are its children.
    pub has_children: bool,
    pub attributes: Attributes<'a>,
}

/// The values of these pairs of attributes and forms, with those of the declaration, and the bytes after them.
pub(crate) fn read_attributes<'a>(
    version: u16,
    constants: Attributes<'a>,
    pairs: &[(u64, u64)],
    bytes: &'a [u8],
) -> Option<(Attributes<'a>, &'a [u8])>
    ensures { option_map (λ x. (attributes_view x.0, x.1.now)) result
        ≡ attributes_from version (attributes_view constants.entry) pairs.now bytes.now }
{
    let mut attributes = constants;
    let mut rest = bytes;
    for pair in pairs {
        let Some((value, after)) = read_value(version, pair.1, 0, rest) else {
            return None;
        };
        attributes.put(pair.0, value);
        rest = after;
    }
    Some((attributes, rest))
}
