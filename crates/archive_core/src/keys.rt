//! The keys of slices.
ghost use Rattle.std.specs.Prelude.{◌≡◌, ◌<◌, length, All};
ghost use Rattle.std.specs.Int.{w128, from_be_bytes};
ghost use Rattle.std.specs.Ordering.{nat_cmp};
ghost use Rattle.std.specs.Cmp.Lexicographic.{slice_cmp};
ghost use Rattle.archive_core.specs.Key.{IsKey, key_bytes};
ghost use Rattle.archive_core.specs.Find.{is_key};

use std::cmp::Ordering;
use uuid::Uuid;

/// An architecture, by the numbers of `mach_header_64`.
#[derive(Clone, Copy, Debug, PartialEq, Eq)]
pub struct ArchKey {
    /// `cputype`.
    pub cputype: u32,
    /// `cpusubtype`. In the key of a slice the high byte, the capability bits, is clear; a retirement may have any
    /// number.
    pub cpusubtype: u32,
}

/// The UUID of a build (`LC_UUID`) and an architecture.
#[derive(Clone, Copy, Debug, PartialEq, Eq)]
pub struct SliceKey {
    pub uuid: Uuid,
    pub arch: ArchKey,
}

/// The SHA-256 of a slice's bytes (FIPS 180-4).
#[derive(Clone, Copy, Debug, PartialEq, Eq)]
pub struct Digest(pub [u8; 32]);

/// Whether two keys are equal.
pub fn is_key(a: &SliceKey, b: &SliceKey) -> bool
    ensures { result ≡ is_key a.now b.now }
{
    *a == *b
}

/// Compares two keys in the order of their bytes in records.
pub fn compare_keys(a: &SliceKey, b: &SliceKey) -> Ordering
    ensures order { result ≡ slice_cmp nat_cmp (key_bytes a.now) (key_bytes b.now) }
    ensures first { length (key_bytes a.now) ≡ 24 }
    ensures second { length (key_bytes b.now) ≡ 24 }
{
    numbers_of(*a).cmp(&numbers_of(*b))
}

// A key as numbers. They compare as the key's bytes do, in fewer steps.
fn numbers_of(key: SliceKey) -> (u128, u32, u32)
    ensures numbers { result ≡ (from_be_bytes w128 key.uuid, key.arch.cputype, key.arch.cpusubtype) }
    ensures key { IsKey key }
    ensures bytes { All (λ b. b < 256) key.uuid }
{
    (key.uuid.as_u128(), key.arch.cputype, key.arch.cpusubtype)
}
