//! Whether the file at OUT has the same bytes as a draft, by reading both.

ghost use Rattle.std.specs.Prelude.{◌≡◌, ◌≢◌, ◌∷◌, ◌++◌, ◌⊎◌, ℕ, List, IfErr, IfOk, OnErr, OnOk, [], length, true};
ghost use Rattle.std.specs.Prelude.{false};
ghost use Rattle.std.specs.List.{concat};
ghost use Rattle.cli_files.specs.FileCalls.{FileCall, Gives, are_probes};
ghost use Rattle.cli_files.specs.Publishing.{AreOther, AreSame, IsEmptyAt, IsTested, both_give};
ghost use Rattle.cli_files.specs.Refusals.{Fails, IsSaid};
ghost use Rattle.cli_files.specs.declared.replaceable.ReplaceRule.{ReplaceRule};
ghost use Rattle.cli_files.specs.declared.replaceable.ReplaceRule.TheVariants.{SameBytes};

use crate::file_calls::FileCalls;
use crate::replaceable::{Obstacle, OutFault};
use crate::system_calls::{Opened, System, SystemCalls};
use std::io::{self, ErrorKind, Read};
use std::rt::Files;

/// The number of bytes that are compared at a time.
const PIECE: usize = 8 * 1024;

/// Tests whether a draft may replace the file at its target: nothing, an empty file, or a file with the same bytes.
pub fn check_sameness<F: Files>(
    system: &System<'_, F>,
    draft: &str,
    target: &str,
    calls: &mut FileCalls,
) -> Result<(), OutFault>
    ensures tested { OnOk result ((tests : List FileCall) × IsTested SameBytes draft.now target.now tests
        × (calls.new.entries ≡ calls.old.entries ++ tests)) }
    ensures refused { OnErr result ((tests : List FileCall) × (are_probes tests ≡ true)
        × (calls.new.entries ≡ calls.old.entries ++ tests)) }
    ensures said { (replaces : ReplaceRule) → IfErr result (λ fault. IsSaid replaces fault calls.new.entries) }
{
    match may_take_place(system, draft, target, calls) {
        Ok(true) => Ok(()),
        Ok(false) => Err(OutFault::NotReplaced(Obstacle::Differs)),
        Err(error) => Err(OutFault::NotReplaced(Obstacle::Refused(Some(error)))),
    }
}

/// Whether nothing, an empty file or a file with the bytes of a draft is at a path.
fn may_take_place<F: Files>(
    system: &System<'_, F>,
    draft: &str,
    target: &str,
    calls: &mut FileCalls,
) -> io::Result<bool>
    ensures agrees { IfOk result (λ same. same ≡ true → (tests : List FileCall)
        × (IsEmptyAt target.now tests ⊎ AreSame draft.now target.now tests)
        × (calls.new.entries ≡ calls.old.entries ++ tests)) }
    ensures differs { IfOk result (λ same. same ≡ false → (tests : List FileCall)
        × AreOther draft.now target.now tests × (calls.new.entries ≡ calls.old.entries ++ tests)) }
    ensures refused { OnErr result ((tests : List FileCall) × (are_probes tests ≡ true)
        × (calls.new.entries ≡ calls.old.entries ++ tests)) }
    ensures failed { IfErr result (λ error. Fails error calls.new.entries) }
{
    let there = match system.metadata(target, calls) {
        Ok(there) => there,
        Err(error) if error.kind() == ErrorKind::NotFound => return Ok(true),
        Err(error) => return Err(error),
    };
    if there.size == 0 {
        return Ok(true);
    }
    if there.size != system.metadata(draft, calls)?.size {
        return Ok(false);
    }
    let mut first = system.open(draft, false, calls)?;
    let mut second = system.open(target, false, calls)?;
    have_same(&mut first, &mut second, there.size, calls)
}

/// Whether the next pieces of two files, as long as these buffers, are the same.
fn has_same_piece<R: Read>(
    first: &mut Opened<'_, R>,
    second: &mut Opened<'_, R>,
    of_first: &mut [u8],
    of_second: &mut [u8],
    calls: &mut FileCalls,
) -> io::Result<bool>
    requires { length of_first.old ≡ length of_second.old }
    ensures same { IfOk result (λ same. same ≡ true → (piece : List ℕ) × (length piece ≡ length of_first.old)
        × (calls.new.entries ≡ calls.old.entries ++ Gives first.old.path.now piece ∷ Gives second.old.path.now piece
        ∷ [])) }
    ensures differs { IfOk result (λ same. same ≡ false → (a : List ℕ) × (b : List ℕ) × (a ≢ b)
        × (calls.new.entries ≡ calls.old.entries ++ Gives first.old.path.now a ∷ Gives second.old.path.now b ∷ [])) }
    ensures refused { OnErr result ((tests : List FileCall) × (are_probes tests ≡ true)
        × (calls.new.entries ≡ calls.old.entries ++ tests)) }
    ensures paths { (first.new.path.now ≡ first.old.path.now) × (second.new.path.now ≡ second.old.path.now) }
    ensures failed { IfErr result (λ error. Fails error calls.new.entries) }
{
    first.read_exact(of_first, calls)?;
    second.read_exact(of_second, calls)?;
    Ok(&*of_first == &*of_second)
}

/// Whether the first `count` bytes of two files are the same.
fn have_same<R: Read>(
    first: &mut Opened<'_, R>,
    second: &mut Opened<'_, R>,
    count: u64,
    calls: &mut FileCalls,
) -> io::Result<bool>
    ensures same { IfOk result (λ same. same ≡ true → (pieces : List (List ℕ)) × (length (concat pieces) ≡ count)
        × (calls.new.entries ≡ calls.old.entries ++ both_give first.old.path.now second.old.path.now pieces)) }
    ensures differs { IfOk result (λ same. same ≡ false → (pieces : List (List ℕ)) × (a : List ℕ) × (b : List ℕ)
        × (a ≢ b)
        × (calls.new.entries ≡ calls.old.entries ++ both_give first.old.path.now second.old.path.now pieces
        ++ Gives first.old.path.now a ∷ Gives second.old.path.now b ∷ [])) }
    ensures refused { OnErr result ((tests : List FileCall) × (are_probes tests ≡ true)
        × (calls.new.entries ≡ calls.old.entries ++ tests)) }
    ensures failed { IfErr result (λ error. Fails error calls.new.entries) }
{
    let mut left = count;
    let mut of_first = [0; PIECE];
    let mut of_second = [0; PIECE];
    'pieces: while left > 0 {
        let size = left.min(PIECE as u64) as usize;
        if !has_same_piece(
            first,
            second,
            &mut of_first[..size],
            &mut of_second[..size],
            calls,
        )? {
            return Ok(false);
        }
        left -= size as u64;
    }
    Ok(true)
}
