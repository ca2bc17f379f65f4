//! The declaration of an abbreviation (DWARF 5, section 7.5.3).

ghost use Rattle.std.specs.Prelude.{◌≡◌};
ghost use Rattle.std.specs.Option.{option_map, option_or};
ghost use Rattle.dwarf_entries.specs.Specifications.{total_size, values_after};

use crate::specification::Shape;
use dwarf_encoding::{fixed_size, skip_value};

/// A declaration, without its code.
#[derive(Drop)]
pub struct Declaration<'a> {
    pub tag: u64,
    pub has_children: bool,
    pub shape: Shape<'a>,
    /// The size in bytes of the values of an entry, if each form has one size in the versions 3 to 5.
    pub(crate) size: Option<usize>,
    ghost size_is: { option_or size (total_size shape.pairs.items) ≡ total_size shape.pairs.items },
}

/// The size in bytes of the values of these pairs of attributes and forms, if each form has one size in the versions 3
/// to 5.
pub(crate) fn total_size(pairs: &[(u64, u64)]) -> Option<usize>
    ensures { option_or result (total_size pairs.now) ≡ total_size pairs.now }
{
    let mut size = 0usize;
    for pair in pairs {
        let Some(one) = fixed_size(3, pair.1) else {
            return None;
        };
        let Some(sum) = size.checked_add(one) else {
            return None;
        };
        size = sum;
    }
    Some(size)
}

/// The bytes after the values of these pairs of attributes and forms; `None` if a value cannot be read.
fn after_pairs<'a>(version: u16, pairs: &[(u64, u64)], bytes: &'a [u8]) -> Option<&'a [u8]>
    ensures { option_map (λ r. r.now) result ≡ values_after version pairs.now bytes.now }
{
    let mut rest = bytes;
    for pair in pairs {
        let Some(after) = skip_value(version, pair.1, rest) else {
            return None;
        };
        rest = after;
    }
    Some(rest)
}

impl<'a> Declaration<'a> {
    /// The bytes after the values of an entry, which begin the bytes; `None` if a value cannot be read.
    pub fn after_values<'b>(&self, version: u16, bytes: &'b [u8]) -> Option<&'b [u8]>
        ensures { option_map (λ r. r.now) result ≡ values_after version self.now.shape.pairs.items bytes.now }
    {
        match self.size {
            Some(size) if version > 2 => {
                if bytes.len() < size {
                    return None;
                }
                Some(bytes.split_at(size).1)
            }
            _ => after_pairs(version, &self.shape.pairs, bytes),
        }
    }
}
