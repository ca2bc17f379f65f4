//! The bytes of keys and of retirements in records.
ghost use Rattle.std.specs.Prelude.{◌≡◌, ◌∷◌, ◌++◌, length};
ghost use Rattle.archive_core.specs.Key.{key_bytes};
ghost use Rattle.archive_core.specs.Record.{retirement_record};

use crate::{Digest, SliceKey};
use uuid::Uuid;

/// The tag of a retirement's record.
pub const RETIREMENT: u8 = 1;

/// The length of a retirement's record in bytes: a tag, a key and a digest.
pub const RETIREMENT_LEN: usize = 57;

// The sixteen bytes of a UUID.
fn uuid_bytes(uuid: &Uuid) -> &[u8]
    ensures bytes { result.now ≡ uuid.now }
    ensures sixteen { length result.now ≡ 16 }
{
    uuid.as_bytes()
}

// Writes the 24 bytes of a key into `part`.
fn lay_key(part: &mut [u8], key: &SliceKey)
    requires { length part.old ≡ 24 }
    ensures { part.new ≡ key_bytes key.now }
{
    part[..16].copy_from_slice(uuid_bytes(&key.uuid));
    part[16..20].copy_from_slice(&key.arch.cputype.to_be_bytes());
    part[20..].copy_from_slice(&key.arch.cpusubtype.to_be_bytes());
}

/// The bytes of a key, which follow the tag in a record.
pub fn key_prefix(key: &SliceKey) -> [u8; 24]
    ensures { result ≡ key_bytes key.now }
{
    let mut whole = [0; 24];
    lay_key(&mut whole, key);
    whole
}

/// A tag, a key and a digest.
pub fn tagged_bytes(tag: u8, key: &SliceKey, digest: &Digest) -> [u8; RETIREMENT_LEN]
    ensures { result ≡ tag ∷ (key_bytes key.now ++ digest.now.0) }
{
    let mut bytes = [0; RETIREMENT_LEN];
    bytes[0] = tag;
    lay_key(&mut bytes[1..25], key);
    bytes[25..].copy_from_slice(&digest.0);
    bytes
}

/// The record of a retirement.
pub fn retirement_bytes(key: &SliceKey, digest: &Digest) -> [u8; RETIREMENT_LEN]
    ensures { result ≡ retirement_record key.now digest.now.0 }
{
    tagged_bytes(RETIREMENT, key, digest)
}
