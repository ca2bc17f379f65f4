//! The architectures with a name, by their numbers in mach/machine.h.
ghost use Rattle.std.specs.Prelude.{◌≡◌, option_map};
ghost use Rattle.text_values.specs.Words.{arch_named, name_of};

use archive_core::ArchKey;

/// `cputype` of 64-bit Intel processors.
pub const CPU_TYPE_X86_64: u32 = 0x0100_0007;

/// Every 64-bit Intel processor.
pub const CPU_SUBTYPE_X86_64_ALL: u32 = 3;

/// 64-bit Intel processors since Haswell.
pub const CPU_SUBTYPE_X86_64_H: u32 = 8;

/// `cputype` of 64-bit ARM processors.
pub const CPU_TYPE_ARM64: u32 = 0x0100_000c;

/// Every 64-bit ARM processor.
pub const CPU_SUBTYPE_ARM64_ALL: u32 = 0;

/// 64-bit ARM processors with pointer authentication.
pub const CPU_SUBTYPE_ARM64E: u32 = 2;

/// An architecture with a name.
#[derive(Clone, Copy, Debug, PartialEq, Eq)]
pub struct NamedArch {
    pub name: &'static str,
    pub arch: ArchKey,
}

/// The architectures with a name.
pub const NAMED_ARCHS: [NamedArch; 4] = [
    NamedArch {
        name: "x86_64",
        arch: ArchKey {
            cputype: CPU_TYPE_X86_64,
            cpusubtype: CPU_SUBTYPE_X86_64_ALL,
        },
    },
    NamedArch {
        name: "x86_64h",
        arch: ArchKey {
            cputype: CPU_TYPE_X86_64,
            cpusubtype: CPU_SUBTYPE_X86_64_H,
        },
    },
    NamedArch {
        name: "arm64",
        arch: ArchKey {
            cputype: CPU_TYPE_ARM64,
            cpusubtype: CPU_SUBTYPE_ARM64_ALL,
        },
    },
    NamedArch {
        name: "arm64e",
        arch: ArchKey {
            cputype: CPU_TYPE_ARM64,
            cpusubtype: CPU_SUBTYPE_ARM64E,
        },
    },
];

/// The architecture with a name.
pub(crate) fn arch_named(name: &str) -> Option<ArchKey>
    ensures { result ≡ arch_named name.now }
{
    NAMED_ARCHS
        .iter()
        .find(|named| named.name == name)
        .map(|named| named.arch)
}

/// The name of an architecture.
pub(crate) fn name_of(arch: ArchKey) -> Option<&'static str>
    ensures { option_map (λ name. name.now) result ≡ name_of arch }
{
    NAMED_ARCHS
        .iter()
        .find(|named| named.arch == arch)
        .map(|named| named.name)
}
