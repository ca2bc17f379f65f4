//! `mach_header_64`, the header at the beginning of an image.

ghost use Rattle.std.specs.Prelude.{◌≡◌, ◌+◌, ◌≤◌, Some, None, IfOk, IfErr, length};
ghost use Rattle.macho_image.specs.Layout.{cputype, cpusubtype, filetype, ncmds, sizeofcmds, command_bytes};
ghost use Rattle.macho_image.specs.Fault.{header_fault};

use crate::fault::ImageFault;
use crate::loader::{MACH_HEADER_64_LEN, MH_MAGIC_64};
use crate::number::number32;

/// The bits of `cpusubtype` for capabilities (mach/machine.h).
pub(crate) const CPU_SUBTYPE_MASK: u32 = 0xff00_0000;

/// `cputype`.
pub(crate) fn cputype(image: &[u8]) -> u32
    requires { 32 ≤ length image.now }
    ensures { result ≡ cputype image.now }
{
    number32(image, 4)
}

/// `cpusubtype`.
pub(crate) fn cpusubtype(image: &[u8]) -> u32
    requires { 32 ≤ length image.now }
    ensures { result ≡ cpusubtype image.now }
{
    number32(image, 8)
}

/// `filetype`.
pub(crate) fn filetype(image: &[u8]) -> u32
    requires { 32 ≤ length image.now }
    ensures { result ≡ filetype image.now }
{
    number32(image, 12)
}

/// `ncmds`.
pub(crate) fn ncmds(image: &[u8]) -> u32
    requires { 32 ≤ length image.now }
    ensures { result ≡ ncmds image.now }
{
    number32(image, 16)
}

/// `sizeofcmds`.
fn sizeofcmds(image: &[u8]) -> u32
    requires { 32 ≤ length image.now }
    ensures { result ≡ sizeofcmds image.now }
{
    number32(image, 20)
}

/// The bytes of the load commands.
pub(crate) fn command_bytes(image: &[u8]) -> &[u8]
    requires { 32 + sizeofcmds image.now ≤ length image.now }
    ensures { result.now ≡ command_bytes image.now }
{
    &image[MACH_HEADER_64_LEN..][..sizeofcmds(image) as usize]
}

/// Tests that the bytes begin with a header and that the load commands after it do not pass the end. The errors are
/// `TooLarge`, `NotMachO64`, `HeaderTruncated` and `CommandsOutside`, tested in this order.
pub(crate) fn check_header(bytes: &[u8]) -> Result<(), ImageFault>
    ensures faulty { IfErr result (λ fault. header_fault bytes.now ≡ Some fault) }
    ensures sound { IfOk result (λ _. header_fault bytes.now ≡ None) }
{
    if bytes.len() > u32::MAX as usize {
        return Err(ImageFault::TooLarge);
    }
    if !bytes.starts_with(&MH_MAGIC_64.to_le_bytes()) {
        return Err(ImageFault::NotMachO64);
    }
    if bytes.len() < MACH_HEADER_64_LEN {
        return Err(ImageFault::HeaderTruncated);
    }
    if bytes.len() < MACH_HEADER_64_LEN + sizeofcmds(bytes) as usize {
        return Err(ImageFault::CommandsOutside);
    }
    Ok(())
}
