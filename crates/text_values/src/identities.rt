//! The texts of a UUID and of a digest.
ghost use Rattle.std.specs.Prelude.{◌≡◌};
ghost use Rattle.std.specs.Str.{IsUtf8};
ghost use Rattle.hex.specs.Hex.{encode_lower};

use crate::words::{Spelled, Word};
use archive_core::Digest;
use hex::FromHex;
use std::fmt;
use uuid::Uuid;

/// A UUID in any of its text forms. It is printed by its own `Display`, hyphenated in lower case.
impl Word for Uuid {
    ghost use Rattle.uuid.specs.Text.{parsed};

    ghost form_of = { parsed };

    fn read(text: &str) -> Option<Uuid> {
        Uuid::parse_str(text).ok()
    }
}

/// A SHA-256 as 64 hex digits, in either case.
impl Word for Digest {
    ghost use Rattle.text_values.specs.Words.{digest_of};

    ghost form_of = { digest_of };

    fn read(text: &str) -> Option<Digest> {
        let bytes = <[u8; 32] as FromHex>::from_hex(text).ok()?;
        Some(Digest(bytes))
    }
}

// Two hex digits for each byte.
fn digits_of(bytes: &[u8; 32]) -> [u8; 64]
    ensures digits { result ≡ encode_lower bytes.now }
    ensures utf8 { IsUtf8 result }
{
    let mut digits = [0; 64];
    hex::encode_to_slice(bytes.as_slice(), &mut digits).unwrap();
    digits
}

/// A SHA-256 as 64 hex digits in lower case.
#[tactic(auto, unfolding(crate::specs::Words::digest_text))]
impl fmt::Display for Spelled<Digest> {
    ghost use Rattle.std.specs.Prelude.{Some};
    ghost use Rattle.text_values.specs.Words.{digest_text};

    ghost output = { λ digest. Some (digest_text digest.0) };

    fn fmt<W: fmt::Write>(&self, f: &mut fmt::Formatter<W>) -> fmt::Result {
        let digits = digits_of(&self.0.0);
        f.write_str(str::from_utf8(&digits).unwrap())
    }
}
