//! The encodings of attribute values (DWARF 5, section 7.5.6).

ghost use Rattle.std.specs.Prelude.{◌≡◌, ◌≤◌, length};
ghost use Rattle.std.specs.Option.{option_map};
ghost use Rattle.dwarf_encoding.specs.Forms.{number_of_size, split_at, after_block, value_at, fixed_size, class_of};
ghost use Rattle.dwarf_encoding.specs.Forms.{class_value, variable_value_at};
ghost use Rattle.dwarf_encoding.specs.Views.{value_view};

use crate::dw_form::*;
use crate::leb128::{signed_leb128, unsigned_leb128};
use crate::little_endian::{u16_le_at, u32_le_at, u64_le_at};
use crate::text::read_text;
use crate::value::Value;

/// The meaning of a value that is encoded as a number; each class names the [`Value`] that the number becomes.
#[derive(Clone, Copy)]
pub enum Class {
    Address,
    AddressIndex,
    Constant,
    StringOffset,
    LineStringOffset,
    StringIndex,
    UnitReference,
    SectionReference,
    SectionOffset,
    RangeListIndex,
    Other,
}

/// The value of this class with this number.
fn class_value<'a>(class: Class, number: u64) -> Value<'a>
    ensures { value_view result ≡ class_value class number }
{
    match class {
        Class::Address => Value::Address(number),
        Class::AddressIndex => Value::AddressIndex(number),
        Class::Constant => Value::Constant(number),
        Class::StringOffset => Value::StringOffset(number),
        Class::LineStringOffset => Value::LineStringOffset(number),
        Class::StringIndex => Value::StringIndex(number),
        Class::UnitReference => Value::UnitReference(number),
        Class::SectionReference => Value::SectionReference(number),
        Class::SectionOffset => Value::SectionOffset(number),
        Class::RangeListIndex => Value::RangeListIndex(number),
        Class::Other => Value::Other,
    }
}

/// The size of each value of a form in bytes, 0 to 8 or 16; `None` if they differ in size.
pub fn fixed_size(version: u16, form: u64) -> Option<usize>
    ensures { result ≡ fixed_size version form }
{
    match form {
        DW_FORM_FLAG_PRESENT => Some(0),
        DW_FORM_DATA1 | DW_FORM_FLAG | DW_FORM_REF1 | DW_FORM_STRX1 | DW_FORM_ADDRX1 => Some(1),
        DW_FORM_DATA2 | DW_FORM_REF2 | DW_FORM_STRX2 | DW_FORM_ADDRX2 => Some(2),
        DW_FORM_STRX3 | DW_FORM_ADDRX3 => Some(3),
        DW_FORM_DATA4
        | DW_FORM_STRP
        | DW_FORM_REF4
        | DW_FORM_SEC_OFFSET
        | DW_FORM_REF_SUP4
        | DW_FORM_STRP_SUP
        | DW_FORM_LINE_STRP
        | DW_FORM_STRX4
        | DW_FORM_ADDRX4 => Some(4),
        DW_FORM_ADDR | DW_FORM_DATA8 | DW_FORM_REF8 | DW_FORM_REF_SIG8 | DW_FORM_REF_SUP8 => Some(
            8,
        ),
        DW_FORM_DATA16 => Some(16),
        DW_FORM_REF_ADDR => Some(if version == 2 { 8 } else { 4 }),
        _ => None,
    }
}

/// The class of the values that a form encodes as numbers.
fn class_of(form: u64) -> Class
    ensures { result ≡ class_of form }
{
    match form {
        DW_FORM_ADDR => Class::Address,
        DW_FORM_ADDRX | DW_FORM_ADDRX1 | DW_FORM_ADDRX2 | DW_FORM_ADDRX3 | DW_FORM_ADDRX4 =>
            Class::AddressIndex,
        DW_FORM_DATA1
        | DW_FORM_DATA2
        | DW_FORM_DATA4
        | DW_FORM_DATA8
        | DW_FORM_SDATA
        | DW_FORM_UDATA => Class::Constant,
        DW_FORM_STRP => Class::StringOffset,
        DW_FORM_LINE_STRP => Class::LineStringOffset,
        DW_FORM_STRX | DW_FORM_STRX1 | DW_FORM_STRX2 | DW_FORM_STRX3 | DW_FORM_STRX4 =>
            Class::StringIndex,
        DW_FORM_REF1 | DW_FORM_REF2 | DW_FORM_REF4 | DW_FORM_REF8 | DW_FORM_REF_UDATA =>
            Class::UnitReference,
        DW_FORM_REF_ADDR => Class::SectionReference,
        DW_FORM_SEC_OFFSET => Class::SectionOffset,
        DW_FORM_RNGLISTX => Class::RangeListIndex,
        _ => Class::Other,
    }
}

/// The little-endian number in the first `size` bytes, where `size` is 1, 2, 3, 4 or 8; 0 for other sizes.
fn number_of_size(bytes: &[u8], size: usize) -> u64
    requires { size ≤ length bytes.now }
    ensures { result ≡ number_of_size size bytes.now }
{
    match size {
        1 => u64::from(bytes[0]),
        2 => u64::from(u16_le_at(bytes, 0)),
        3 => u64::from(u16_le_at(bytes, 0)) + 65536 * u64::from(bytes[2]),
        4 => u64::from(u32_le_at(bytes, 0)),
        8 => u64_le_at(bytes, 0),
        _ => 0,
    }
}

/// The first `size` bytes, and the bytes after them; `None` if there are fewer.
fn split_at(bytes: &[u8], size: u64) -> Option<(&[u8], &[u8])>
    ensures { option_map (λ x. (x.0.now, x.1.now)) result ≡ split_at size bytes.now }
{
    if (bytes.len() as u64) < size {
        return None;
    }
    Some(bytes.split_at(size as usize))
}

/// The bytes after a block that begins with its length, a number of `size` bytes; `None` if the block passes the end.
#[tactic(auto, unfolding(crate::specs::Forms::after_block))]
fn after_block(bytes: &[u8], size: usize) -> Option<&[u8]>
    ensures { option_map (λ x. x.now) result ≡ after_block size bytes.now }
{
    if bytes.len() < size {
        return None;
    }
    let (_, rest) = split_at(bytes.split_at(size).1, number_of_size(bytes, size))?;
    Some(rest)
}

/// The value of a form whose values differ in size, and the bytes after it; `None` if the form has no such values or
/// the value passes the end.
#[tactic(auto, unfolding(crate::specs::Forms::variable_value_at))]
fn variable_value(form: u64, bytes: &[u8]) -> Option<(Value<'_>, &[u8])>
    ensures { option_map (λ x. (value_view x.0, x.1.now)) result ≡ variable_value_at form bytes.now }
{
    match form {
        DW_FORM_UDATA
        | DW_FORM_REF_UDATA
        | DW_FORM_STRX
        | DW_FORM_ADDRX
        | DW_FORM_LOCLISTX
        | DW_FORM_RNGLISTX => {
            let (number, rest) = unsigned_leb128(bytes)?;
            Some((class_value(class_of(form), number), rest))
        }
        DW_FORM_SDATA => {
            let (number, rest) = signed_leb128(bytes)?;
            Some((Value::Constant(number), rest))
        }
        DW_FORM_STRING => {
            let (text, rest) = read_text(bytes)?;
            Some((Value::InlineString(text), rest))
        }
        DW_FORM_BLOCK1 => Some((Value::Other, after_block(bytes, 1)?)),
        DW_FORM_BLOCK2 => Some((Value::Other, after_block(bytes, 2)?)),
        DW_FORM_BLOCK4 => Some((Value::Other, after_block(bytes, 4)?)),
        DW_FORM_BLOCK | DW_FORM_EXPRLOC => {
            let (size, rest) = unsigned_leb128(bytes)?;
            let (_, after) = split_at(rest, size)?;
            Some((Value::Other, after))
        }
        _ => None,
    }
}

/// The value of a form that begins the bytes, and the bytes after it; `None` if the form is unknown, is
/// DW_FORM_indirect, or its value passes the end. `version` is the version of the unit; `implicit` is the number in the
/// attribute's declaration if the form is DW_FORM_implicit_const.
#[tactic(auto, unfolding(crate::specs::Forms::value_at))]
pub fn read_value(
    version: u16,
    form: u64,
    implicit: u64,
    bytes: &[u8],
) -> Option<(Value<'_>, &[u8])>
    ensures { option_map (λ x. (value_view x.0, x.1.now)) result ≡ value_at version form implicit bytes.now }
{
    if form == DW_FORM_IMPLICIT_CONST {
        return Some((Value::Constant(implicit), bytes));
    }
    let Some(size) = fixed_size(version, form) else {
        return variable_value(form, bytes);
    };
    if bytes.len() < size {
        return None;
    }
    Some((
        class_value(class_of(form), number_of_size(bytes, size)),
        bytes.split_at(size).1,
    ))
}

/// The bytes after the value that begins the bytes: as [`read_value`], without the value.
#[tactic(auto, unfolding(crate::specs::Forms::value_at))]
pub fn skip_value(version: u16, form: u64, bytes: &[u8]) -> Option<&[u8]>
    ensures { option_map (λ rest. rest.now) result ≡ option_map (λ x. x.1) (value_at version form 0 bytes.now) }
{
    if form == DW_FORM_IMPLICIT_CONST {
        return Some(bytes);
    }
    let Some(size) = fixed_size(version, form) else {
        let (_, rest) = variable_value(form, bytes)?;
        return Some(rest);
    };
    if bytes.len() < size {
        return None;
    }
    Some(bytes.split_at(size).1)
}
