//! Laws: a printed value is read back as the same value.
ghost use Rattle.std.specs.Prelude.{◌≡◌, ◌<◌, ◌^◌, ℕ, List, All, Some, length};
ghost use Rattle.uuid.specs.Text.{hyphenated_text, lower, parsed};
ghost use Rattle.archive_core.specs.declared.keys.ArchKey.{ArchKey};
ghost use Rattle.archive_core.specs.declared.keys.Digest.{Digest};
ghost use Rattle.text_values.specs.Words.{address_of, address_text, arch_of, arch_text, digest_of, digest_text};

/// An architecture with a clear high byte of `cpusubtype`, as in each key of a slice.
pub fn arch_is_read_back()
    ensures { (arch : ArchKey) → arch.cputype < 2 ^ 32 → arch.cpusubtype < 2 ^ 24
        → arch_of (arch_text arch) ≡ Some arch }
{}

/// A UUID.
pub fn uuid_is_read_back()
    ensures { (uuid : List ℕ) → length uuid ≡ 16 → All (λ byte. byte < 256) uuid
        → parsed (hyphenated_text lower uuid) ≡ Some uuid }
{}

/// A digest.
pub fn digest_is_read_back()
    ensures { (digest : Digest) → length digest.0 ≡ 32 → All (λ byte. byte < 256) digest.0
        → digest_of (digest_text digest) ≡ Some digest }
{}

/// An address.
pub fn address_is_read_back()
    ensures { (address : ℕ) → address < 2 ^ 64 → address_of (address_text address) ≡ Some address }
{}
