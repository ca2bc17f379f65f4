//! The text of an architecture.
ghost use Rattle.std.specs.Prelude.{◌≡◌};
ghost use Rattle.text_values.specs.Words.{arch_key_of, arch_of, arch_in_cpu_form};

use crate::machine::{arch_named, name_of};
use crate::numbers::{EightDigits, read_eight_digits};
use crate::words::{Spelled, Word};
use archive_core::ArchKey;
use std::fmt;

// An architecture by its numbers.
#[derive(Clone, Copy)]
struct ByNumbers(ArchKey);

impl fmt::Display for ByNumbers {
    ghost use Rattle.std.specs.Prelude.{Some};
    ghost use Rattle.text_values.specs.Words.{cpu_text};

    ghost output = { λ arch. Some (cpu_text arch.0) };

    fn fmt<W: fmt::Write>(&self, f: &mut fmt::Formatter<W>) -> fmt::Result {
        let cputype = EightDigits(self.0.cputype);
        let cpusubtype = EightDigits(self.0.cpusubtype);
        write!(f, "cpu:{cputype}/{cpusubtype}")
    }
}

/// An architecture by its name, or as `cpu:` and its two numbers.
#[tactic(auto, unfolding(crate::specs::Words::arch_text))]
impl fmt::Display for Spelled<ArchKey> {
    ghost use Rattle.std.specs.Prelude.{Some};
    ghost use Rattle.text_values.specs.Words.{arch_text};

    ghost output = { λ arch. Some (arch_text arch.0) };

    fn fmt<W: fmt::Write>(&self, f: &mut fmt::Formatter<W>) -> fmt::Result {
        match name_of(self.0) {
            Some(name) => f.write_str(name),
            None => ByNumbers(self.0).fmt(f),
        }
    }
}

/// An architecture by its name, or as `cpu:` and its two numbers; the high byte of the second is clear.
impl Word for ArchKey {
    ghost form_of = { arch_of };

    fn read(text: &str) -> Option<ArchKey> {
        match arch_named(text) {
            Some(arch) => Some(arch),
            None => read_cpu(text.as_bytes()),
        }
    }
}

// The architecture, if both numbers are there.
fn arch_key(cputype: Option<u32>, cpusubtype: Option<u32>) -> Option<ArchKey>
    ensures { result ≡ arch_key_of cputype cpusubtype }
{
    Some(ArchKey {
        cputype: cputype?,
        cpusubtype: cpusubtype?,
    })
}

// An architecture as `cpu:` and its two numbers; the high byte of the second is clear.
fn read_cpu(text: &[u8]) -> Option<ArchKey>
    ensures { result ≡ arch_in_cpu_form text.now }
{
    if text.len() != 21 || !text.starts_with(b"cpu:") || text[12..15] != b"/00"[..] {
        return None;
    }
    arch_key(
        read_eight_digits(&text[4..12]),
        read_eight_digits(&text[13..21]),
    )
}
