//! Names: those of segments and sections, which have sixteen bytes and are padded with NUL, and those that end with
//! NUL.

ghost use Rattle.std.specs.Prelude.{◌≡◌, ◌+◌, ◌≤◌, ◌==◌, length};
ghost use Rattle.std.specs.List.{before_first};
ghost use Rattle.macho_image.specs.Layout.{name_at};

use crate::loader::NAME_LEN;
use memchr::memchr;

/// The bytes before the first NUL, or all of them if there is none.
#[tactic(auto, using(crate::proofs::Names::parts_at_nul))]
pub fn before_nul(bytes: &[u8]) -> &[u8]
    ensures { result.now ≡ before_first (λ b. b == 0) bytes.now }
{
    match memchr(0, bytes) {
        Some(end) => &bytes[..end],
        None => bytes,
    }
}

/// The name in the sixteen bytes from an offset.
pub(crate) fn name(bytes: &[u8], offset: usize) -> &[u8]
    requires { offset + 16 ≤ length bytes.now }
    ensures { result.now ≡ name_at bytes.now offset }
{
    let (_, field) = bytes.split_at(offset);
    before_nul(&field[..NAME_LEN])
}
