//! Which records the retirements before them in an archive's text cover.

ghost use Rattle.std.specs.Prelude.{◌≡◌, false, length, IfOk, IfErr, option_map};
ghost use Rattle.archive_core.specs.Record.{IsRecord};
ghost use Rattle.archive_core.specs.Content.{is_covered};
ghost use Rattle.archive_records.specs.declared.fault.RecordFaultKind.TheVariants.{OutOfMemory};
ghost use Rattle.archive_records.specs.Reader.{IsFound, IsFoundOfLast, Keeps, retirement_in, set_of, with_shared};

use crate::fault::RecordFaultKind;
use crate::head::ADMISSION_HEAD_LEN;
use archive_core::{CheckedSlice, RETIREMENT, RETIREMENT_LEN, Retirements, SliceFacts};

/// Whether a retirement covers the whole record, by the facts of its slice. If its digest is needed, it is computed and
/// kept in the facts.
pub fn retires(retired: &Retirements, bytes: &[u8], found: &mut Option<SliceFacts>) -> bool
    requires { IsFoundOfLast bytes.now found.old }
    ensures retires { IsRecord bytes.now → result ≡ is_covered (set_of retired.now) bytes.now }
    ensures found { IsFoundOfLast bytes.now found.new }
{
    let Some(facts) = found else {
        return false;
    };
    let mut slice = CheckedSlice::of_checked(&bytes[ADMISSION_HEAD_LEN..], *facts);
    let covered = retired.covers(&mut slice);
    *facts = slice.facts();
    covered
}

/// The same for these and for those that are shared with another reader, if there are any.
pub fn retires_beside(
    shared: Option<&Retirements>,
    retired: &Retirements,
    bytes: &[u8],
    found: &mut Option<SliceFacts>,
) -> bool
    requires { IsFoundOfLast bytes.now found.old }
    ensures retires { IsRecord bytes.now
        → result ≡ is_covered (set_of (with_shared (option_map (λ s. s.now) shared.entry) retired.now)) bytes.now }
    ensures found { IsFoundOfLast bytes.now found.new }
{
    if retires(retired, bytes, found) {
        return true;
    }
    match shared {
        Some(shared) => retires(shared, bytes, found),
        None => false,
    }
}

/// The record of a retirement.
fn record_of(bytes: &[u8]) -> [u8; RETIREMENT_LEN]
    requires { length bytes.now ≡ 57 }
    ensures { result ≡ bytes.now }
{
    let mut record = [0; RETIREMENT_LEN];
    record.copy_from_slice(bytes);
    record
}

/// The bytes, if they are the record of a retirement.
pub fn retirement_in(bytes: &[u8]) -> Option<[u8; RETIREMENT_LEN]>
    ensures { result ≡ retirement_in bytes.now }
{
    if bytes.len() == RETIREMENT_LEN && bytes[0] == RETIREMENT {
        return Some(record_of(bytes));
    }
    None
}

/// Adds the record if it is a retirement, and returns whether a retirement, own or shared, covers it, by the facts of
/// its slice. Fails only if memory runs out.
pub fn take(
    shared: Option<&Retirements>,
    retired: &mut Retirements,
    bytes: &[u8],
    found: &mut Option<SliceFacts>,
) -> Result<bool, RecordFaultKind>
    requires { IsFound bytes.now found.old }
    ensures found { IsFound bytes.now found.new }
    ensures kept { IfOk result (λ covered. Keeps (with_shared (option_map (λ s. s.now) shared.entry) retired.old)
        (with_shared (option_map (λ s. s.now) shared.entry) retired.new) covered bytes.now) }
    ensures refused { IfErr result (λ kind. (kind ≡ OutOfMemory)
        × (is_covered (set_of (with_shared (option_map (λ s. s.now) shared.entry) retired.old)) bytes.now ≡ false)) }
{
    if found.is_some() {
        return Ok(retires_beside(shared, retired, bytes, found));
    }
    match retired.keep(record_of(bytes)) {
        Ok(_) => Ok(false),
        Err(_) => Err(RecordFaultKind::OutOfMemory),
    }
}
