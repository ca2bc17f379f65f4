//! Texts that end with a NUL (DW_FORM_string; sections of texts).

ghost use Rattle.std.specs.Prelude.{◌≡◌};
ghost use Rattle.std.specs.List.{before_first};
ghost use Rattle.std.specs.Option.{option_map};
ghost use Rattle.dwarf_encoding.specs.Text.{is_nul, text_at, text_in};

use memchr::memchr;

/// The bytes before the first NUL, or all of them if there is none.
#[tactic(auto, using(crate::proofs::Texts::parts_at_nul))]
fn before_nul(bytes: &[u8]) -> &[u8]
    ensures { result.now ≡ before_first is_nul bytes.now }
{
    match memchr(0, bytes) {
        Some(end) => &bytes[..end],
        None => bytes,
    }
}

/// The text that begins the bytes, without its final NUL, and the bytes after the NUL; `None` if there is no NUL.
pub fn read_text(bytes: &[u8]) -> Option<(&[u8], &[u8])>
    ensures { option_map (λ x. (x.0.now, x.1.now)) result ≡ text_at bytes.now }
{
    let end = memchr(0, bytes)?;
    Some((bytes.split_at(end).0, bytes.split_at(end + 1).1))
}

/// The text at an offset of a section of texts, such as `__debug_str`; it ends before its NUL or at the end of the
/// section. `None` if the offset is not below the section's size.
pub(crate) fn text_in(section: &[u8], offset: u64) -> Option<&[u8]>
    ensures { option_map (λ x. x.now) result ≡ text_in section.now offset }
{
    if (section.len() as u64) <= offset {
        return None;
    }
    Some(before_nul(section.split_at(offset as usize).1))
}
