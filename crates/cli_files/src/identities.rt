//! Which file of the system a path names.

ghost use Rattle.std.specs.Prelude.{◌≡◌, ◌++◌, [], Result, false, map, true};
ghost use Rattle.std.specs.declared.io.Error.{Error};
ghost use Rattle.cli_files.specs.FileCalls.{found};
ghost use Rattle.cli_files.specs.Identities.{AreApart, IsMet, is_same};
ghost use Rattle.cli_files.specs.declared.found.Found.{Found};

use crate::file_calls::FileCalls;
use crate::system_calls::{System, SystemCalls};
use std::rt::Files;

/// Whether two paths name one regular file, as other spellings, symbolic links and hard links do.
fn is_same_file<F: Files>(
    system: &System<'_, F>,
    left: &str,
    right: &str,
    calls: &mut FileCalls,
) -> bool
    ensures { (a : Result Found Error) × (b : Result Found Error) × (result ≡ is_same a b)
        × (calls.new.entries ≡ calls.old.entries ++ found left.now a ++ found right.now b) }
{
    match (system.metadata(left, calls), system.metadata(right, calls)) {
        (Ok(left), Ok(right)) => left.is_one(&right),
        _ => false,
    }
}

/// Whether none of these paths names the regular file that `path` names. They are read in order, up to the first that
/// does.
pub fn none_is_same_file<F: Files>(
    system: &System<'_, F>,
    path: &str,
    inputs: &[&str],
    calls: &mut FileCalls,
) -> bool
    ensures apart { calls.old.entries ≡ [] → result ≡ true
        → AreApart path.now (map (λ p. p.now) inputs.now) calls.new.entries }
    ensures met { calls.old.entries ≡ [] → result ≡ false
        → IsMet path.now (map (λ p. p.now) inputs.now) calls.new.entries }
{
    'inputs: for input in inputs {
        if is_same_file(system, path, input, calls) {
            return false;
        }
    }
    true
}
