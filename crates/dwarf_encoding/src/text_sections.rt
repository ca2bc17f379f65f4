//! The texts that attribute values name (DWARF 5, section 7.5.5, class string).

ghost use Rattle.std.specs.Prelude.{◌≡◌};
ghost use Rattle.std.specs.Option.{option_map};
ghost use Rattle.dwarf_encoding.specs.TextSections.{indexed_offset, text_of};
ghost use Rattle.dwarf_encoding.specs.Views.{value_view};
ghost use Rattle.dwarf_encoding.specs.TextViews.{text_sections_view};

use crate::little_endian::u32_le_at;
use crate::text::text_in;
use crate::value::Value;

/// The sections that store texts, and the offset of the unit's part of `__debug_str_offs`.
#[derive(Clone, Copy)]
pub struct TextSections<'a> {
    pub debug_str: &'a [u8],
    pub debug_line_str: &'a [u8],
    pub debug_str_offs: &'a [u8],
    /// DW_AT_str_offsets_base of the unit, or 8 if it has none.
    pub str_offsets_base: u64,
}

/// The four-byte number at an index of the unit's part of `__debug_str_offs`, which begins at `base`; `None` if it
/// passes the end.
fn indexed_offset(debug_str_offs: &[u8], base: u64, index: u64) -> Option<u64>
    ensures { result ≡ indexed_offset debug_str_offs.now base index }
{
    let offset = index.checked_mul(4)?.checked_add(base)?;
    let size = debug_str_offs.len() as u64;
    if size < 4 || size - 4 < offset {
        return None;
    }
    Some(u64::from(u32_le_at(debug_str_offs, offset as usize)))
}

impl<'a> TextSections<'a> {
    /// The text that a value names, without its NUL; `None` if the value has another class, or if its text or its index
    /// is outside its section.
    pub fn text_of(&self, value: &Value<'a>) -> Option<&'a [u8]>
        ensures { option_map (λ x. x.now) result ≡ text_of (text_sections_view self.now) (value_view value.now) }
    {
        match *value {
            Value::InlineString(text) => Some(text),
            Value::StringOffset(offset) => text_in(self.debug_str, offset),
            Value::LineStringOffset(offset) => text_in(self.debug_line_str, offset),
            Value::StringIndex(index) => {
                let offset = indexed_offset(self.debug_str_offs, self.str_offsets_base, index)?;
                text_in(self.debug_str, offset)
            }
            _ => None,
        }
    }
}
