//! The first bytes of the keys of requested operations.

ghost use Rattle.std.specs.Prelude.{◌≡◌, length};
ghost use Rattle.archive_core.specs.Key.{key_bytes};

use archive_core::SliceKey;
use archive_records::key_prefix;
use uuid::Uuid;

/// The first bytes of a key.
#[derive(Clone, Copy)]
pub enum KeyPrefix {
    /// A UUID, under which there may be several keys.
    Uuid(Uuid),
    /// A whole key.
    Key(SliceKey),
}

/// The bytes of a key.
pub(crate) fn key_of(key: SliceKey) -> [u8; 24]
    ensures bytes { result ≡ key_bytes key }
    ensures long { length (key_bytes key) ≡ 24 }
{
    key_prefix(&key)
}
